//! What a room's header says, which line is taken, how the lists of lines lie apart, and where the walk for a key goes. These are the
//! facts by which code stays within the room.

ghost use Rattle.room_laws.specs.Stocks.{MapTakeLaw, QueueTakeLaw, MapHeaderLaw, QueueHeaderLaw, QueueBoundsLaw, MapBoundsLaw, WalkLaw, CountingLaw, MapChainsLaw, QueueChainsLaw};

/// The line that a map room takes, where one is left, is one for nodes, and stands in no bucket's chain.
pub fn map_take_law()
    ensures { MapTakeLaw }
{}

/// The line that the queue room takes, where one is left, is one for nodes, and does not stand in the chain.
pub fn queue_take_law()
    ensures { QueueTakeLaw }
{}

/// The header of a map room: the count is the number of keys, the lines up to fresh have room for them, and the first free line is one
/// that was given out.
pub fn map_header_law()
    ensures { MapHeaderLaw }
{}

/// The header of the queue room: the same, for the number of items.
pub fn queue_header_law()
    ensures { QueueHeaderLaw }
{}

/// The words of the queue room's header and ends that name lines name lines of the room.
pub fn queue_bounds_law()
    ensures { QueueBoundsLaw }
{}

/// What a key of a map room leads to lies in the room: its head, its node and the node before that; and the count is not 0 where the key
/// has a node.
pub fn map_bounds_law()
    ensures { MapBoundsLaw }
{}

/// The walk for a key meets lines of the room alone, and ends within as many steps as the room has lines.
pub fn walk_law()
    ensures { WalkLaw }
{}

/// The counting of lines by which rooms are defined says just what one would say of chains one by one: no line twice, no line in two
/// lists, only lines that were given out, and each of them. It holds both ways.
pub fn counting_law()
    ensures { CountingLaw }
{}

/// In a map room no line stands twice in a chain, in two chains, or in a chain and among the free lines; and each line that was given
/// out stands in one of them.
pub fn map_chains_law()
    ensures { MapChainsLaw }
{}

/// In the queue room no line stands twice in the chain, or in it and among the free lines; and each line that was given out stands in
/// one of them.
pub fn queue_chains_law()
    ensures { QueueChainsLaw }
{}
