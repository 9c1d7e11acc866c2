ghost use Rattle.std.specs.{Prelude.{◌≡◌, true, None, Some, OnOk}, Option.{option_copied}};
ghost use Rattle.lsp_texts.specs.Texts.{AreSame, has_room, no_texts, texts_in, with_text};

use crate::OpenText;
use std::alloc::{AllocError, Global};
use std::collections::BTreeMap;

/// The texts of open documents, each at its path, in a map by path. A contract sees the texts
/// (`texts_in`), and where there is room for one (`has_room`).
#[derive(Drop)]
pub struct OpenTexts {
    rooms: BTreeMap<String, Option<OpenText>>,
}

impl OpenTexts {
    /// No texts. It takes no memory.
    pub fn new(alloc: Global) -> OpenTexts
        ensures { AreSame no_texts (texts_in result) }
    {
        OpenTexts {
            rooms: BTreeMap::new(alloc),
        }
    }

    /// The text at the path, if there is one.
    pub fn at(&self, path: &str) -> Option<&OpenText>
        ensures { option_copied result ≡ texts_in self.now path.now }
    {
        self.rooms.get(path)?.as_ref()
    }

    /// Makes room for a text at the path, so that putting one there needs no memory. The texts stay as they are, also
    /// where memory is refused, which is the one error.
    pub fn make_room(&mut self, alloc: Global, path: &str) -> Result<(), AllocError>
        ensures same { AreSame (texts_in self.old) (texts_in self.new) }
        ensures room { OnOk result (has_room self.new path.now ≡ true) }
    {
        if self.rooms.get(path).is_none() {
            self.rooms.insert(String::from_str(alloc, path)?, None)?;
        }
        Ok(())
    }

    /// Puts the text at the path, in place of what is there. It takes no memory.
    pub fn put(&mut self, path: &str, text: OpenText)
        requires room { has_room self.old path.now ≡ true }
        ensures { AreSame (with_text path.now (Some text) (texts_in self.old)) (texts_in self.new) }
    {
        // The room is there by now, since a change that is accepted must not be lost for want of memory.
        if let Some(room) = self.rooms.get_mut(path) {
            *room = Some(text);
        }
    }

    /// Takes the text at the path away, if there is one. It takes no memory.
    pub fn remove(&mut self, path: &str)
        ensures { AreSame (with_text path.now None (texts_in self.old)) (texts_in self.new) }
    {
        self.rooms.remove(path);
    }
}
