//! A room stands for one contents, which is a function of its words, and only record words count. Formatted rooms stand for an object
//! that holds nothing, and the writes of a room's commands stay within the room.

ghost use Rattle.room_laws.specs.Rooms.{MapWordsLaw, QueueWordsLaw, WordsLaw, MapFormattedLaw, QueueFormattedLaw, FormattedLaw, MapPairsLaw, QueueItemsLaw, ContentsLaw, PartLaw, IsRoomLaw, WithinLaw, PointWordsLaw};

/// What a map room stands for rests on words 0 to 2 of its lines alone.
pub fn map_words_law()
    ensures { MapWordsLaw }
{}

/// What the queue room stands for rests on words 0 to 2 of its lines alone.
pub fn queue_words_law()
    ensures { QueueWordsLaw }
{}

/// What a room stands for rests on words 0 to 2 of its lines alone.
pub fn words_law()
    ensures { WordsLaw }
{}

/// The restart point of a thread's room rests on the record words alone.
pub fn point_words_law()
    ensures { PointWordsLaw }
{}

/// A formatted map room stands for no pairs.
pub fn map_formatted_law()
    ensures { MapFormattedLaw }
{}

/// The formatted queue room stands for no items.
pub fn queue_formatted_law()
    ensures { QueueFormattedLaw }
{}

/// A formatted room of a shard or of the queue stands for the object as it begins.
pub fn formatted_law()
    ensures { FormattedLaw }
{}

/// A map room stands for one set of pairs alone: those that the walks from its heads give.
pub fn map_pairs_law()
    ensures { MapPairsLaw }
{}

/// The queue room stands for one list alone: the one that the walk from its first line gives.
pub fn queue_items_law()
    ensures { QueueItemsLaw }
{}

/// A room stands for one contents alone, and `contents_of` gives it: what the object holds, as far as it belongs to this room.
pub fn contents_law()
    ensures { ContentsLaw }
{}

/// A room that stands for what the object holds stands for its own part of that, and the other way round.
pub fn part_law()
    ensures { PartLaw }
{}

/// A room that stands for something stands for what its words give, and for all that the object may hold of which this is the room's
/// part. So what a room holds may be kept as a function of its words.
pub fn is_room_law()
    ensures { IsRoomLaw }
{}

/// Each write of a command in its room goes to word 0, 1 or 2 of a line of the room.
pub fn within_law()
    ensures { WithinLaw }
{}
