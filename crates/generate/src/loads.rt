// A load that is drawn: so many cells, so many levels deep, from a first generator on.
ghost use Rattle.generate.specs.Room.{Limited, Limited-prop};

use crate::generator::Generator;

#[derive(Clone, Copy)]
pub struct Load {
    pub depth: usize,
    pub n: usize,
    pub first: Generator,
    pub ghost limited: { Limited depth n } by { Limited-prop depth n },
}
