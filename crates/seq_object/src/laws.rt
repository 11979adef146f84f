//! The laws of the object and of histories, each the contract of a function that does nothing.
//!
//! A caller cites a law by calling its function. The statements are in specs/Laws, in the words of
//! specs/Object and specs/History.
ghost use Rattle.seq_object.specs.Laws.{LegalInPiecesLaw, AfterInPiecesLaw, PointLaw, PointCountLaw, CommandsInPiecesLaw, RoomReplyLaw, OwnRoomLaw, OtherRoomLaw, RoomAfterLaw, RoomByRoomLaw, PrefixLaw, InOrderLaw, RoomBoundLaw, OneWholeLaw, RoomCountLaw, ThreadCountLaw, ShardPutLaw, ShardRemoveLaw, ListedLaw};

/// A history in two pieces is legal exactly where the first is, and the second from what it leaves.
pub fn legal_in_pieces_law()
    ensures { LegalInPiecesLaw }
{}

/// What two pieces leave is what the second leaves after the first.
pub fn after_in_pieces_law()
    ensures { AfterInPiecesLaw }
{}

/// A thread's restart point after a history is the one behind its own entries.
pub fn point_law()
    ensures { PointLaw }
{}

/// A history leaves as many restart points as there were.
pub fn point_count_law()
    ensures { PointCountLaw }
{}

/// A thread's entries in two pieces go through its script in order.
pub fn commands_in_pieces_law()
    ensures { CommandsInPiecesLaw }
{}

/// A command has the same reply by its room's part as by the whole.
pub fn room_reply_law()
    ensures { RoomReplyLaw }
{}

/// A command changes its own room's part as it would alone.
pub fn own_room_law()
    ensures { OwnRoomLaw }
{}

/// A command of another room does not change a room's part.
pub fn other_room_law()
    ensures { OtherRoomLaw }
{}

/// What a history leaves in a room is what the room's entries leave there.
pub fn room_after_law()
    ensures { RoomAfterLaw }
{}

/// A history is legal exactly where each room's part of it is.
pub fn room_by_room_law()
    ensures { RoomByRoomLaw }
{}

/// A prefix of a legal history is legal.
pub fn prefix_law()
    ensures { PrefixLaw }
{}

/// Entries that go through a script in order have its commands, each once, with one index after another.
pub fn in_order_law()
    ensures { InOrderLaw }
{}

/// The room of a command is a shard's or the queue's.
pub fn room_bound_law()
    ensures { RoomBoundLaw }
{}

/// The rooms' parts make the whole.
pub fn one_whole_law()
    ensures { OneWholeLaw }
{}

/// The entries of all rooms are all entries.
pub fn room_count_law()
    ensures { RoomCountLaw }
{}

/// The entries of all threads are all entries.
pub fn thread_count_law()
    ensures { ThreadCountLaw }
{}

/// A put adds a key to its shard where it is new.
pub fn shard_put_law()
    ensures { ShardPutLaw }
{}

/// A removal takes a key from its shard where it was there.
pub fn shard_remove_law()
    ensures { ShardRemoveLaw }
{}

/// The listed pairs of a map are those that it has, in the order of their keys.
pub fn listed_law()
    ensures { ListedLaw }
{}
