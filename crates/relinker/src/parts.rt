//! Items that are counted and laid out part by part.
ghost use Rattle.relinker.specs.Joined.{PartsJoin};
ghost use Rattle.relinker.specs.Laid.{OneCode};

/// Items counted and laid out part by part give what all give at once. Laid out from one base,
/// given items have one code, so `finish` returns what `link` returns.
pub fn parts_join()
    ensures join { PartsJoin }
    ensures code { OneCode }
{}
