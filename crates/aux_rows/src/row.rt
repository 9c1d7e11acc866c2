//! What a row states of a command: its words, what it reads and what it is to write.
use aux_graph_text::TextFault;
use std::alloc::{AllocError, Global};

/// An input, what is to be written on it, and which calls fail.
#[derive(Drop)]
pub struct Exchange {
    /// The door whose pair it is, from 1; 0 for the program's own input and output.
    pub door: u32,
    pub input: Vec<u8>,
    pub wanted: Vec<u8>,
    /// What may be written in place of that.
    pub or: Option<Vec<u8>>,
    /// Which reads and writes fail, from 0.
    pub reads: Vec<u32>,
    pub writes: Vec<u32>,
    /// Whether it is never given out.
    pub unused: bool,
}

impl Exchange {
    pub fn new(alloc: Global, door: u32) -> Exchange {
        Exchange {
            door,
            input: Vec::new(alloc),
            wanted: Vec::new(alloc),
            or: None,
            reads: Vec::new(alloc),
            writes: Vec::new(alloc),
            unused: false,
        }
    }

    /// Whether this may be written.
    pub fn allows(&self, written: &[u8]) -> bool {
        match &self.or {
            Some(or) if or.as_slice() == written => true,
            _ => self.wanted.as_slice() == written,
        }
    }
}

/// How the input comes.
#[derive(Clone, Copy, PartialEq, Eq)]
pub enum Way {
    /// Piece by piece.
    Whole,
    /// Each line once all before it are answered.
    Typed,
    /// Cut at each of its bytes.
    EachCut,
    /// Failing at each of its reads.
    EachRead,
    /// With an output that fails at each of its writes.
    EachWrite,
}

/// What a row states of a command.
#[derive(Drop)]
pub struct Row {
    pub words: Vec<String>,
    pub status: u8,
    /// How many bytes a read gives at most, in each run.
    pub pieces: Vec<u32>,
    /// How many bytes a write takes at most; as many as a read gives where nothing is said.
    pub takes: Option<u32>,
    pub way: Way,
    pub doors: u32,
    /// The program's own input and output, and behind them the pairs of its doors.
    pub exchanges: Vec<Exchange>,
    /// How often the next text stands there.
    pub times: u32,
    /// Whether it states a command at all.
    pub begun: bool,
}

/// The words that stand between blanks.
pub fn words_of(alloc: Global, text: &str) -> Result<Vec<String>, AllocError> {
    let mut words = Vec::new(alloc);
    for word in text.split(' ') {
        words.push(String::from_str(alloc, word)?)?;
    }
    Ok(words)
}

/// What a text such as `LEFT => RIGHT` has on its sides.
pub fn sides(text: &str) -> Result<(&str, &str), TextFault> {
    match text.split_once(" => ") {
        Some(sides) => Ok(sides),
        None => Err(TextFault::Word),
    }
}

/// The number that a text is.
pub fn number(text: &str) -> Result<u32, TextFault> {
    match text.parse::<u32>() {
        Ok(number) => Ok(number),
        Err(_) => Err(TextFault::Word),
    }
}

/// The numbers that stand between blanks.
pub fn numbers(alloc: Global, text: &str) -> Result<Vec<u32>, TextFault> {
    let mut numbers = Vec::new(alloc);
    for word in text.split(' ') {
        numbers.push(number(word)?)?;
    }
    Ok(numbers)
}

impl Row {
    /// A row of `run` with status 0 that reads and writes nothing, once by pieces of one byte, of seven and of 4,096.
    pub fn new(alloc: Global) -> Result<Row, TextFault> {
        let exchanges = vec![in alloc; Exchange::new(alloc, 0)]?;
        Ok(Row {
            words: words_of(alloc, "run")?,
            status: 0,
            pieces: numbers(alloc, "1 7 4096")?,
            takes: None,
            way: Way::Whole,
            doors: 0,
            exchanges,
            times: 1,
            begun: false,
        })
    }
}
