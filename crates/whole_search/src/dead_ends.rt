use partial_path::{Config, Spot};
use stacks_vars::{NodeAt, SymbolItem};
use std::alloc::{AllocError, Global};

/// How many buckets there are: as many as twelve bits of a hash name.
const BUCKETS: usize = 4_096;

/// With how many configurations of a bucket one is compared at most, so that full buckets cost no search its time.
const COMPARED: usize = 32;

/// How many symbols of a stack, and how many bytes of a symbol, its hash is made of, so that a deep stack costs no
/// more than a flat one.
const HASHED: usize = 8;

/// No place: past the end of any vector.
const NOWHERE: usize = usize::MAX;

/// What the configurations that are remembered may weigh, in the unit of `weight_of`: 65,536 of them where their stacks
/// are empty, and fewer where they are deep.
pub const ROOM: usize = 1_048_576;

/// The configurations that are remembered as dead ends. What they weigh is at most `ROOM`: where one more
/// wouldn't fit, all others are forgotten. A contract sees them in the order in which they came.
#[derive(Drop)]
pub struct DeadEnds {
    pub kept: Vec<Config>,
    /// For each of them its hash, and which one of its bucket came before.
    links: Vec<Link>,
    /// For each bucket the one that came last; empty before the first comes.
    lasts: Vec<usize>,
    /// What all of them weigh.
    weight: usize,
}

#[derive(Drop)]
struct Link {
    hash: u64,
    before: usize,
}

impl DeadEnds {
    ghost use Rattle.std.specs.Prelude.{◌≡◌, ◌∷◌, [], ◌++◌, ◌⊎◌, IsTrue, Contains, OnOk};

    /// None remembered. It takes no memory.
    pub fn new(alloc: Global) -> DeadEnds
        ensures { result.kept.items ≡ [] }
    {
        DeadEnds {
            kept: Vec::new(alloc),
            links: Vec::new(alloc),
            lasts: Vec::new(alloc),
            weight: 0,
        }
    }

    /// Whether the configuration is found among them. It takes time that doesn't follow their number: one
    /// that came long before many others of its bucket isn't looked for.
    pub fn holds(&self, at: &Config) -> bool
        ensures { IsTrue result → Contains self.now.kept.items at.now }
    {
        if self.kept.is_empty() {
            return false;
        }
        let hash = hash_of(at);
        let mut place = self.last_of(hash);
        for _ in 0..COMPARED {
            let Some(link) = self.links.get(place) else {
                return false;
            };
            if link.hash == hash && self.is_at(place, at) {
                return true;
            }
            place = link.before;
        }
        false
    }

    /// Whether the configuration is the one at the place.
    fn is_at(&self, place: usize, at: &Config) -> bool
        ensures { IsTrue result → Contains self.now.kept.items at.now }
    {
        match self.kept.get(place) {
            Some(kept) => kept.same(at),
            None => false,
        }
    }

    /// The place of the last one with a hash of the same bucket.
    fn last_of(&self, hash: u64) -> usize {
        match self.lasts.get(bucket_of(hash)) {
            Some(last) => *last,
            None => NOWHERE,
        }
    }

    /// Remembers one more, which weighs so much; the one error is want of memory.
    pub fn keep(&mut self, alloc: Global, at: Config, weight: usize) -> Result<(), AllocError>
        ensures { OnOk result
            ((self.new.kept.items ≡ self.old.kept.items ++ at ∷ [])
            ⊎ (self.new.kept.items ≡ at ∷ [])) }
    {
        if self.lasts.is_empty() || weight > ROOM.saturating_sub(self.weight) {
            self.forget(alloc)?;
        }
        // The link comes first, and names the place that is next: where memory is refused behind it, that place holds
        // nothing, and nothing is found there.
        self.link(hash_of(&at))?;
        self.weight = self.weight.saturating_add(weight);
        self.kept.push(at)?;
        Ok(())
    }

    /// Forgets all of them.
    fn forget(&mut self, alloc: Global) -> Result<(), AllocError>
        ensures { OnOk result (self.new.kept.items ≡ []) }
    {
        self.kept.clear();
        self.links.clear();
        self.lasts = vec![in alloc; NOWHERE; BUCKETS]?;
        self.weight = 0;
        Ok(())
    }

    /// Makes the next place the last of the bucket of its hash, so that what came last is found first.
    fn link(&mut self, hash: u64) -> Result<(), AllocError>
        ensures { OnOk result (self.new.kept.items ≡ self.old.kept.items) }
    {
        let before = self.last_of(hash);
        self.links.push(Link { hash, before })?;
        if let Some(last) = self.lasts.get_mut(bucket_of(hash)) {
            *last = self.kept.len();
        }
        Ok(())
    }
}

/// What a configuration weighs: 16, and one for each symbol and each scope that it holds.
pub fn weight_of(at: &Config) -> usize {
    let mut weight = at.stacks.scopes.reversed().len().saturating_add(16);
    for item in at.stacks.symbols.reversed() {
        weight = weight.saturating_add(weight_of_item(item));
    }
    weight
}

fn weight_of_item(item: &SymbolItem) -> usize {
    match &item.scopes {
        Some(scopes) => scopes.reversed().len().saturating_add(1),
        None => 1,
    }
}

/// The bucket of a hash: its first twelve bits, since a product's first bits hang on all of its factors' bits.
fn bucket_of(hash: u64) -> usize {
    (hash >> 52) as usize
}

/// A hash of the configuration, made of where it stands, how much its stacks hold, and the symbols at the front, where
/// stacks of one search differ first.
fn hash_of(at: &Config) -> u64 {
    let symbols = at.stacks.symbols.reversed();
    let scopes = at.stacks.scopes.reversed();
    let mut hash = mix(hash_of_spot(at.spot), scopes.len() as u64);
    if let Some(scope) = scopes.last() {
        hash = mix_node(hash, *scope);
    }
    hash = mix(hash, symbols.len() as u64);
    for k in 0..HASHED {
        if let Some(item) = symbols.get(symbols.len().saturating_sub(k + 1)) {
            hash = mix_bytes(hash, item.symbol.as_bytes());
        }
    }
    hash
}

fn hash_of_spot(spot: Spot) -> u64 {
    match spot {
        Spot::Root => 0,
        Spot::At(node) => mix_node(1, node),
    }
}

fn mix_node(hash: u64, node: NodeAt) -> u64 {
    mix(mix(hash, u64::from(node.file)), u64::from(node.node))
}

/// The hash with the first bytes of a symbol, and their number.
fn mix_bytes(hash: u64, bytes: &[u8]) -> u64 {
    let mut hash = mix(hash, bytes.len() as u64);
    for k in 0..HASHED {
        if let Some(byte) = bytes.get(k) {
            hash = mix(hash, u64::from(*byte));
        }
    }
    hash
}

/// The hash with one number more, as FxHash mixes it: turned, joined, and multiplied by an odd number, which loses no
/// bit of it.
fn mix(hash: u64, number: u64) -> u64 {
    (hash.rotate_left(5) ^ number).wrapping_mul(0x517c_c1b7_2722_0a95)
}
