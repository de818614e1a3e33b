ghost use Rattle.std.specs.Prelude.{◌≡◌, ◌<◌, replicate, slice_set};
ghost use Rattle.walk.specs.Marks.{marked};

use ir::Value;

/// How many values a graph can have, and so how many marks a walk needs.
pub const MARKS: usize = 1024;

/// The marks of a walk, by value number, in bytes that the caller lends: none at first, and none again when the walk lets
/// them go.
// Nothing compares or prints marks, and their `Drop` is the point of them.
pub(crate) struct Marks<'a> {
    bytes: &'a mut [u8; MARKS],
}

impl<'a> Marks<'a> {
    /// No mark, whatever the bytes hold.
    pub(crate) fn new(bytes: &'a mut [u8; MARKS]) -> Marks<'a>
        ensures same_reference { result.bytes.ghost_name ≡ bytes.entry.ghost_name }
        ensures none { result.bytes.now ≡ replicate 1024 0 }
    {
        *bytes = [0; MARKS];
        Marks { bytes }
    }

    /// Marks `v`.
    pub(crate) fn mark(&mut self, v: Value)
        requires { v.0 < 1024 }
        ensures same_reference { self.new.bytes.ghost_name ≡ self.old.bytes.ghost_name }
        ensures after { self.new.bytes.now ≡ slice_set self.old.bytes.now v.0 1 }
    {
        self.bytes[v.0 as usize] = 1;
    }

    /// Whether `v` is marked.
    pub(crate) fn is_marked(&self, v: Value) -> bool
        requires { v.0 < 1024 }
        ensures { result ≡ marked self.now.bytes.now v.0 }
    {
        let bytes = &*self.bytes;
        bytes[v.0 as usize] != 0
    }
}

impl Drop for Marks<'_> {
    fn drop(self)
        ensures { self.exit.0.now ≡ replicate 1024 0 }
    {
        *self.bytes = [0; MARKS];
        let Marks { bytes: _ } = self;
    }
}
