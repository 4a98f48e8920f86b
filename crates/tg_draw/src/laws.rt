//! Laws: each function is a theorem, its contract, and costs nothing when it is called.
ghost use Rattle.tg_draw.specs.Promise.Laws.{DrawnOnExamples, OnePicture};

/// A vault has one picture under a label: the picture is a function of what the vault contains.
pub fn one_picture()
    ensures { OnePicture }
{}

/// What is drawn, on examples.
pub fn drawn_on_examples()
    ensures { DrawnOnExamples }
{}
