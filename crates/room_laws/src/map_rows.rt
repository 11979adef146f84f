//! The rows of the table of writes in a map room, each for every layout of the bucket heads. A room that stands for the pairs of its
//! shard stands behind a row's writes for the pairs that the sequential object has next.

ghost use Rattle.room_laws.specs.MapRows.{LayoutsLaw, GetLaw, PutPresentLaw, PutAbsentLaw, MapFullLaw, DelPresentLaw, DelAbsentLaw};

/// Both ways to lay out the bucket heads are layouts, and the one in use leaves room for as many keys as a shard can hold.
pub fn layouts_law()
    ensures { LayoutsLaw }
{}

/// Get: the pairs have at a key of the shard what the key's node has, and nothing where the key has no node.
pub fn get_law()
    ensures { GetLaw }
{}

/// Put of a key that has a node: one write, of the value.
pub fn put_present_law()
    ensures { PutPresentLaw }
{}

/// Put of a key that has no node, where a line is left: the line is taken from the free ones, or else from those that were never given
/// out, and becomes the first of its bucket's chain.
pub fn put_absent_law()
    ensures { PutAbsentLaw }
{}

/// Put where no line is left: this is so exactly where the room has at least as many keys as lines for nodes.
pub fn map_full_law()
    ensures { MapFullLaw }
{}

/// Removal of a key that has a node, at the head of its chain or inside: the node becomes the first free line.
pub fn del_present_law()
    ensures { DelPresentLaw }
{}

/// Removal of a key that has no node: nothing is written, and the pairs stay.
pub fn del_absent_law()
    ensures { DelAbsentLaw }
{}
