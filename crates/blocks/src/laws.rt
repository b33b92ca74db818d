// What 'the same image with these data words' comes to.
ghost use Rattle.blocks.specs.Layout.{OpensWith, Pinned};

/// It opens, and holds what it held but for the data words.
pub fn same_image_opens()
    ensures { OpensWith }
{}

/// It leaves no byte open.
pub fn same_image_pins_every_byte()
    ensures { Pinned }
{}
