//! Elements of all maps, and of one.

ghost use Rattle.std.specs.Prelude.{◌≡◌};
ghost use Rattle.bpfspec_records.specs.Elements.{map_of};

/// The map of an element of all maps of these sizes, and the element's number in it.
pub(crate) fn map_of(sizes: &[u32], element: u32) -> (usize, u32)
    ensures { (result.0, result.1) ≡ map_of sizes.now element }
{
    let mut rest = element;
    for (map, size) in sizes.iter().enumerate() {
        if rest < *size {
            return (map, rest);
        }
        rest -= *size;
    }
    (sizes.len(), rest)
}
