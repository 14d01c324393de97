//! A text that grows part by part.

ghost use Rattle.std.specs.Prelude.{◌≡◌, [], ◌++◌, OnOk, IfSome};
ghost use Rattle.std.specs.List.{flat_map};
ghost use Rattle.journal_text.specs.Text.{joined, line_end};

use mr_base::{Bytes, Memory};
use std::alloc::Global;
use std::fmt;
use std::fmt::Write;
use std::marker::Model;

/// A text to which parts are added at the end.
#[derive(Drop)]
pub(crate) struct TextBuffer {
    alloc: Global,
    bytes: Vec<u8>,
}

impl Model for TextBuffer {
    ghost use Rattle.std.specs.Prelude.{List, ℕ};

    ghost Value = { List ℕ };

    ghost view = { λ t. t.bytes.items };
}

/// A value that stands in a line as a part of its own.
pub(crate) trait Part {
    ghost use Rattle.std.specs.Prelude.{List, ℕ};

    /// What is written for the value.
    ghost text: { Self → List ℕ };

    /// Adds the value's text at the end of `line`.
    fn add_to(&self, line: &mut TextBuffer) -> Result<(), Memory>
        ensures { OnOk result (line.new ≡ line.old ++ text self.now) };
}

impl fmt::Write for TextBuffer {
    ghost write_str_gives = { λ s bs t. t ≡ s ++ bs };

    fn write_str(&mut self, s: &str) -> fmt::Result {
        match self.bytes.extend_from_slice(s.as_bytes()) {
            Ok(()) => Ok(()),
            Err(_) => Err(fmt::Error),
        }
    }
}

impl TextBuffer {
    /// The empty text, which takes no memory.
    pub(crate) fn new(alloc: Global) -> TextBuffer
        ensures { result ≡ [] }
    {
        TextBuffer {
            alloc,
            bytes: Vec::new(alloc),
        }
    }

    /// The allocator that the text was made with.
    pub(crate) fn alloc(&self) -> Global {
        self.alloc
    }

    /// The text as bytes, without taking memory.
    pub(crate) fn into_bytes(self) -> Bytes
        ensures { result ≡ self }
    {
        let TextBuffer { bytes, .. } = self;
        Bytes::from_vec(bytes)
    }

    /// Adds bytes as they are.
    pub(crate) fn add_bytes(&mut self, bytes: &[u8]) -> Result<(), Memory>
        ensures { OnOk result (self.new ≡ self.old ++ bytes.now) }
    {
        self.bytes.extend_from_slice(bytes)?;
        Ok(())
    }

    /// Adds words as they are.
    pub(crate) fn add_words(&mut self, words: &str) -> Result<(), Memory>
        ensures { OnOk result (self.new ≡ self.old ++ words.now) }
    {
        self.bytes.extend_from_slice(words.as_bytes())?;
        Ok(())
    }

    /// Adds what `{}` writes of a value.
    pub(crate) fn add_shown<T: fmt::Display>(&mut self, value: &T) -> Result<(), Memory>
        ensures { OnOk result (IfSome (T.output value.now) (λ text. self.new ≡ self.old ++ text)) }
    {
        match write!(self, "{value}") {
            Ok(()) => Ok(()),
            Err(_) => Err(Memory),
        }
    }

    /// Adds words and, right after them, what `{}` writes of a value.
    pub(crate) fn add_field<T: fmt::Display>(
        &mut self,
        words: &str,
        value: &T,
    ) -> Result<(), Memory>
        ensures { OnOk result (IfSome (T.output value.now) (λ text. self.new ≡ self.old ++ (words.now ++ text))) }
    {
        self.add_words(words)?;
        self.add_shown(value)
    }

    /// Ends a line.
    pub(crate) fn end_line(&mut self) -> Result<(), Memory>
        ensures { OnOk result (self.new ≡ self.old ++ line_end) }
    {
        self.add_words("\n")
    }

    /// Adds the items one after the other.
    pub(crate) fn add_all<T: Part>(&mut self, items: &[T]) -> Result<(), Memory>
        ensures { OnOk result (self.new ≡ self.old ++ flat_map T.text items.now) }
    {
        for item in items {
            item.add_to(self)?;
        }
        Ok(())
    }

    /// Adds the items with `between` between each two.
    pub(crate) fn add_joined<T: Part>(&mut self, between: &str, items: &[T]) -> Result<(), Memory>
        ensures { OnOk result (self.new ≡ self.old ++ joined T.text between.now items.now) }
    {
        let Some((first, rest)) = items.split_first() else {
            return Ok(());
        };
        first.add_to(self)?;
        for item in rest {
            self.add_words(between)?;
            item.add_to(self)?;
        }
        Ok(())
    }
}
