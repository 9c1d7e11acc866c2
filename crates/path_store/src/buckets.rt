use std::alloc::{AllocError, Global};
use std::collections::HashMap;

/// The numbers of pairs, in a bucket for each digest. A contract reads them by `in_bucket`.
#[derive(Drop)]
pub(crate) struct Buckets {
    numbers: HashMap<[u8; 32], Vec<u64>>,
}

impl Buckets {
    ghost use Rattle.std.specs.Prelude.{◌≡◌, ℕ, List, [], ◌∷◌, ◌++◌, drop, OnOk, OnErr};
    ghost use Rattle.path_store.specs.Buckets.{in_bucket, SetsBucket, AreSame};

    /// No numbers. It takes no memory.
    pub(crate) fn new(alloc: Global) -> Buckets
        ensures { (d : List ℕ) → in_bucket result d ≡ [] }
    {
        Buckets {
            numbers: HashMap::new(alloc),
        }
    }

    /// The numbers in the bucket of the digest.
    pub(crate) fn numbers(&self, digest: &[u8; 32]) -> &[u64]
        ensures { result.now ≡ in_bucket self.now digest.now }
    {
        match self.numbers.get(digest) {
            Some(numbers) => numbers.as_slice(),
            None => &[],
        }
    }

    /// Puts the number last in the bucket of the digest. The one error is want of memory, and then
    /// nothing has changed.
    pub(crate) fn add(
        &mut self,
        alloc: Global,
        digest: &[u8; 32],
        number: u64,
    ) -> Result<(), AllocError>
        ensures ok { OnOk result (SetsBucket self.old self.new digest.now
            (in_bucket self.old digest.now ++ number ∷ [])) }
        ensures err { OnErr result (AreSame self.old self.new) }
    {
        if let Some(numbers) = self.numbers.get_mut(digest) {
            numbers.push(number)?;
            return Ok(());
        }
        let mut numbers = Vec::new(alloc);
        numbers.push(number)?;
        self.numbers.insert(*digest, numbers)?;
        Ok(())
    }

    /// Takes the first number out of the bucket of the digest, and the bucket with its last number.
    #[tactic(auto, using(std::proofs::lemmas::List::drop_all))]
    pub(crate) fn drop_first(&mut self, digest: &[u8; 32])
        ensures { SetsBucket self.old self.new digest.now (drop 1 (in_bucket self.old digest.now)) }
    {
        if self.numbers(digest).len() <= 1 {
            self.numbers.remove(digest);
        } else if let Some(numbers) = self.numbers.get_mut(digest) {
            numbers.remove(0);
        }
    }
}
