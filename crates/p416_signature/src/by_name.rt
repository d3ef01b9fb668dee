// Objects with their own names.
ghost use Rattle.std.specs.Prelude.{◌≡◌, map};
ghost use Rattle.p416_signature.specs.internal.Seen.{own_name, seen_object};

use crate::objects::Found;
use name_numbers::Numbering;

/// Objects that are found by their own names.
pub struct ByName<'a> {
    /// Their names.
    pub names: Numbering<'a>,
    /// The objects, in the same order.
    pub objects: Vec<Found<'a>>,
    ghost named: { names ≡ map own_name (map seen_object objects.items) },
}

impl Drop for ByName<'_> {
    fn drop(self) {
        let ByName {
            names: _names,
            objects: _objects,
        } = self;
    }
}
