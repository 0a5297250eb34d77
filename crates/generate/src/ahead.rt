// Draws ahead: the state after up to sixteen draws, in one step.
ghost use Rattle.std.specs.Prelude.{◌≡◌, ◌+◌, ◌<◌};
ghost use Rattle.load.specs.Generator.{draw_bytes};

use crate::generator::Generator;

// The state after j + 1 draws is FACTORS[j] times the state plus TERMS[j], modulo 2 to the 32. Two lists and none of pairs: a step
// reads sixteen of each, one behind another.
const FACTORS: [u32; 16] = [
    1664525, 389569705, 2940799637, 158984081, 2862450781, 3211393721, 1851289957, 3934847009,
    2184914861, 246739401, 1948736821, 2941245873, 4195587069, 4088025561, 980655621, 2001863745,
];

const TERMS: [u32; 16] = [
    1013904223, 1196435762, 3519870697, 2868466484, 1649599747, 2670642822, 1476291629, 2748932008,
    2180890343, 2498801434, 3421909937, 3167820124, 2636375307, 3801544430, 28987765, 2210837584,
];

// The state after j + 1 draws, without those between: sixteen of them do not wait for one another.
pub fn state_after(first: Generator, j: usize) -> u32
    requires { j < 16 }
    ensures { result ≡ (draw_bytes (j + 1) first.state).state }
{
    let factor = FACTORS[j] as u64;
    let term = TERMS[j] as u64;
    ((factor * (first.state as u64) + term) % 4294967296) as u32
}
