ghost use Rattle.std.specs.Prelude.{◌≡◌, ◌%◌, ◌<◌, length};
ghost use Rattle.block_names.specs.Names.{route_of, tag_of};

use byte_fields::read_u32;
use std::marker::Model;

/// The name of a block's content: 16 bytes, which a contract sees as a list. Names are ordered byte by byte.
#[derive(Clone, Copy, Debug, PartialEq, Eq, PartialOrd, Ord)]
pub struct Name {
    bytes: [u8; 16],
}

impl Model for Name {
    ghost use Rattle.std.specs.Prelude.{List, ℕ};

    ghost Value = { List ℕ };

    ghost view = { λ name. name.bytes };

    ghost inverse = { λ bytes. record { bytes = bytes } };
}

impl Name {
    /// The name of these bytes.
    pub fn new(bytes: [u8; 16]) -> Name
        ensures { result ≡ bytes }
    {
        Name { bytes }
    }

    /// The bytes.
    pub fn as_bytes(&self) -> &[u8]
        ensures bytes { result.now ≡ self.now }
        ensures size { length result.now ≡ 16 }
    {
        &self.bytes
    }
}

/// The number by which the index finds the chapters of a name.
pub fn tag(name: &Name) -> u32
    ensures { result ≡ tag_of name.now }
{
    read_u32(name.as_bytes(), 0)
}

/// The hash zone of a name, of so many.
pub fn route(name: &Name, zones: u32) -> u32
    requires { 0 < zones }
    ensures zone { result ≡ route_of name.now % zones }
    ensures below { result < zones }
{
    read_u32(name.as_bytes(), 4) % zones
}
