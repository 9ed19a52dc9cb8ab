ghost use Rattle.std.specs.Prelude.{◌≡◌, ◌<◌, ◌≤◌, length, None, Some, IfOk, IfErr};
ghost use Rattle.std.specs.Option.{option_copied};
ghost use Rattle.frame_wire.specs.Fields.{IsText};

use crate::fault::TextFault;
use std::alloc::{AllocError, Global};
use std::marker::Model;

/// A text of at most 32,767 bytes, or null. It need not be UTF-8. Null and the empty text are two values.
#[derive(Debug, Drop)]
pub struct Text {
    bytes: Option<Vec<u8>>,
}

impl Model for Text {
    ghost use Rattle.std.specs.Prelude.{ℕ, List, Option};
    ghost use Rattle.std.specs.Option.{option_map};
    ghost use Rattle.frame_wire.specs.Fields.{IsText};

    ghost Value = { Option (List ℕ) };

    ghost view = { λ t. option_map (λ v. v.items) t.bytes };

    ghost invariant = { λ t. IsText (option_map (λ v. v.items) t.bytes) };
}

impl Text {
    /// The text that is null. It takes no memory.
    pub fn null() -> Text
        ensures { result ≡ None }
    {
        Text { bytes: None }
    }

    /// A text of these bytes. It takes memory for them, and answers `TooLong` exactly where there are more than 32,767.
    pub fn copy(alloc: Global, bytes: &[u8]) -> Result<Text, TextFault>
        ensures ok { IfOk result (λ t. t ≡ Some bytes.now) }
        ensures too_long { 32767 < length bytes.now → result ≡ Err (TextFault.TooLong (length bytes.now)) }
        ensures memory { length bytes.now ≤ 32767 → IfErr result (λ fault. fault ≡ TextFault.Memory) }
    {
        if bytes.len() > 32767 {
            return Err(TextFault::TooLong { len: bytes.len() });
        }
        match Vec::from_slice(alloc, bytes) {
            Ok(copied) => Ok(Text {
                bytes: Some(copied),
            }),
            Err(_) => Err(TextFault::Memory),
        }
    }

    /// The bytes, or `None` where the text is null.
    pub fn get(&self) -> Option<&[u8]>
        ensures value { option_copied result ≡ self.now }
        ensures short { IsText self.now }
    {
        match &self.bytes {
            None => None,
            Some(bytes) => Some(bytes.as_slice()),
        }
    }
}

impl Clone for Text {
    ghost use Rattle.std.specs.Prelude.{◌≡◌};

    ghost is_clone = { λ text copy. copy ≡ text };

    fn clone(&self) -> Result<Text, AllocError> {
        match &self.bytes {
            None => Ok(Text::null()),
            Some(bytes) => {
                let copied = Vec::from_slice(*bytes.allocator(), bytes.as_slice())?;
                Ok(Text {
                    bytes: Some(copied),
                })
            }
        }
    }
}

impl PartialEq for Text {
    ghost use Rattle.std.specs.Prelude.{◌==◌};
    ghost use Rattle.std.specs.Option.{option_eq};
    ghost use Rattle.std.specs.Cmp.Lexicographic.{pointwise};
    ghost use Rattle.std.specs.Cmp.Rules.{comparing};
    ghost use Rattle.std.proofs.Common.{rules};

    ghost eq = { option_eq (pointwise (λ a b. a == b)) };

    ghost laws = { Prim.search (comparing, rules) };

    fn eq(&self, other: &Text) -> bool {
        self.get() == other.get()
    }
}

impl Eq for Text {
    ghost use Rattle.std.specs.Prelude.{◌==◌};
    ghost use Rattle.std.specs.Option.{option_eq};
    ghost use Rattle.std.specs.Cmp.Lexicographic.{pointwise};
    ghost use Rattle.std.specs.Cmp.Rules.{comparing};
    ghost use Rattle.std.proofs.Common.{rules};

    ghost laws = { Prim.search (comparing, rules) };
}
