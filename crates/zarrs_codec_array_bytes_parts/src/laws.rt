//! Laws of views.

ghost use Rattle.zarrs_codec_array_bytes_parts.specs.Laws.{StandSideBySide, WritesArray, HoldsWritten, HoldsMeaning, TakesMeaning};

/// Views of one array whose boxes share no element leave each other's elements, one written after the
/// other: the array then has both boxes', and its old ones elsewhere.
pub fn views_side_by_side()
    ensures { StandSideBySide }
{}

/// What is written into a view's box is what the array then has there, in row-major order; its other elements
/// are as they were.
pub fn view_holds_what_is_written()
    ensures array { WritesArray }
    ensures elements { HoldsWritten }
{}

/// A target takes array bytes that mean a list of its kind and number of elements, and then holds that list.
pub fn target_holds_what_is_put()
    ensures takes { TakesMeaning }
    ensures holds { HoldsMeaning }
{}
