//! Names of fields, and codes, as short texts of bytes that need no memory of their own. Which bytes they
//! may have is asked in `check/name.rt`.
ghost use Rattle.std.specs.Prelude.{◌≡◌, ◌≤◌, ◌<◌, ◌⊎◌, length, take, IfSome, IfNone};

use std::marker::Model;

/// The longest name or code, in bytes.
const LONGEST: usize = 32;

/// The name of a field, or a code: 1 to 32 bytes.
#[derive(Drop)]
pub struct Name {
    bytes: [u8; 32],
    size: u8,
}

impl Model for Name {
    ghost use Rattle.std.specs.Prelude.{ℕ, ◌≤◌, List, take};

    ghost Value = { List ℕ };

    ghost view = { λ n. take n.size n.bytes };

    ghost invariant = { λ n. (1 ≤ n.size) × (n.size ≤ 32) };
}

impl Name {
    /// The name of these bytes, or None where there are not 1 to 32 of them. No memory.
    pub fn new(bytes: &[u8]) -> Option<Name>
        ensures some { IfSome result (λ name. name ≡ bytes.now) }
        ensures none { IfNone result ((length bytes.now < 1) ⊎ (32 < length bytes.now)) }
    {
        if bytes.is_empty() || bytes.len() > LONGEST {
            return None;
        }
        let mut held = [0; LONGEST];
        held[..bytes.len()].copy_from_slice(bytes);
        Some(Name {
            bytes: held,
            size: bytes.len() as u8,
        })
    }

    /// The bytes of the name, 1 to 32. No memory.
    pub fn as_bytes(&self) -> &[u8]
        ensures bytes { result.now ≡ self.now }
        ensures size { (1 ≤ length self.now) × (length self.now ≤ 32) }
    {
        &self.bytes[..usize::from(self.size)]
    }
}
