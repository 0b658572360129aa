//! What spellings and sizes have to do with each other, each the contract of a function that does nothing.
ghost use Rattle.set_codec.specs.Alone.{OneBatchOrFault, OnePacketOrFault, SpellingsOfBatches, NoBatchBeginsAnother, NoPacketBeginsAnother};
ghost use Rattle.set_codec.specs.Sizes.{SizeIsLength, SetSizeIsLength};

/// The size of a set's changes and that of a batch are the numbers of bytes of their spellings,
/// whatever schema they fit.
pub fn size_is_length()
    ensures set { SetSizeIsLength }
    ensures batch { SizeIsLength }
{}

/// A batch has one spelling in each format, and where it touches a row one in GGB2 alone.
pub fn one_spelling_a_format()
    ensures { SpellingsOfBatches }
{}

/// Bytes are a spelling of one batch, or they have one fault as a batch, and not both; and so for packets.
pub fn one_answer_for_all_bytes()
    ensures batch { OneBatchOrFault }
    ensures packet { OnePacketOrFault }
{}

/// No spelling of a batch begins another's of the same schema, in whichever format each is, and no spelling
/// of a packet does, so equal spellings are of equal values.
pub fn no_spelling_begins_another()
    ensures batch { NoBatchBeginsAnother }
    ensures packet { NoPacketBeginsAnother }
{}
