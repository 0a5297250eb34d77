// The generator: a number of 32 bits. Each draw hands back the next one.
ghost use Rattle.std.specs.Prelude.{◌≡◌};
ghost use Rattle.load.specs.Generator.{draw};
ghost use Rattle.generate.specs.Generator.{drew};

#[derive(Clone, Copy)]
pub struct Generator {
    pub state: u32,
}

// What was drawn, and the generator of the next draw.
#[derive(Clone, Copy)]
pub struct Drawn<T> {
    pub made: T,
    pub next: Generator,
}

impl Generator {
    // The state is below 2 to the 32 and its factor below 2 to the 21, so that no product wraps; the draw, at most 65535, is the upper half
    // of the new one.
    pub fn draw(self) -> Drawn<u32>
        ensures { drew result ≡ draw self.state }
    {
        let s = (1664525 * (self.state as u64) + 1013904223) % 4294967296;
        Drawn {
            made: (s / 65536) as u32,
            next: Generator { state: s as u32 },
        }
    }
}
