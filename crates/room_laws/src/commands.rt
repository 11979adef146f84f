//! All rows of the table of writes at once, for a command in its room. With the laws on the other rooms these carry a whole memory
//! from what the sequential object holds before a command to what it holds after it.

ghost use Rattle.room_laws.specs.Commands.{CommandAfterLaw, CommandReplyLaw, OtherCommandLaw, RoomStepLaw};

/// Behind the writes of a command its room stands for what the object holds after the command. Where the reply is full, absent or empty
/// there are no writes.
pub fn command_after_law()
    ensures { CommandAfterLaw }
{}

/// What a command's room answers is the object's reply: nothing exactly at a take where the queue is empty.
pub fn command_reply_law()
    ensures { CommandReplyLaw }
{}

/// Every room but the command's own stands, as it is, for what the object holds after the command.
pub fn other_command_law()
    ensures { OtherCommandLaw }
{}

/// What a command's room holds, as a function of its words, behind the writes: what an object that held no more than the room did holds
/// after the command.
pub fn room_step_law()
    ensures { RoomStepLaw }
{}
