// Numbers in groups, at the front of some bytes. Each is read and judged in one pass, if its bytes
// are all there: most numbers have one group or two.
ghost use Rattle.std.specs.Prelude.{◌≡◌, ◌%◌, ◌^◌, ◌+◌, ◌*◌, ◌<◌, ◌≤◌, IfSome, length};
ghost use Rattle.trace_format.specs.Ahead.{HasNumber, HasNumberAt};

use base::behind;

// A number, and where it ends.
#[derive(Clone, Copy, Drop)]
pub(crate) struct Known {
    pub(crate) number: u32,
    pub(crate) end: usize,
}

// The number of a group and of those behind it.
#[inline(always)]
fn with_group(byte: u8, above: u32) -> u32
    requires { above < 2 ^ 25 }
    ensures { result ≡ byte % 128 + 128 * above }
{
    u32::from(byte % 128) + 128 * above
}

// A number of more groups than one, unless its last group is 0.
#[inline(always)]
fn ending_in(last: u8, number: u32, end: usize) -> Option<Known>
    ensures { IfSome result (λ stated. (1 ≤ last) × (stated.number ≡ number) × (stated.end ≡ end)) }
{
    if last == 0 {
        return None;
    }
    Some(Known { number, end })
}

// The number at the front of some bytes, if all of it is there and it is spelled in the one way.
#[inline(always)]
fn number_ahead(bytes: &[u8]) -> Option<Known>
    ensures { IfSome result (λ stated. HasNumber bytes.now stated.number stated.end) }
{
    match *bytes {
        [a, ..] if a < 128 => Some(Known {
            number: u32::from(a),
            end: 1,
        }),
        [a, b, ..] if b < 128 => ending_in(b, with_group(a, u32::from(b)), 2),
        [a, b, c, ..] if c < 128 => {
            let high = with_group(b, u32::from(c));
            ending_in(c, with_group(a, high), 3)
        }
        [a, b, c, d, ..] if d < 128 => {
            let high = with_group(c, u32::from(d));
            ending_in(d, with_group(a, with_group(b, high)), 4)
        }
        [a, b, c, d, e, ..] if e <= 15 => {
            let high = with_group(c, with_group(d, u32::from(e)));
            ending_in(e, with_group(a, with_group(b, high)), 5)
        }
        _ => None,
    }
}

/// The number from a place on, if all of it is there and it is spelled in the one way.
#[inline(always)]
pub(crate) fn number_at(bytes: &[u8], place: usize) -> Option<Known>
    requires { place ≤ length bytes.now }
    ensures stated { IfSome result (λ stated. HasNumberAt bytes.now place stated.number stated.end) }
    ensures there { IfSome result (λ stated. stated.end ≤ length bytes.now) }
{
    match number_ahead(behind(bytes, place)) {
        Some(Known { number, end }) => Some(Known {
            number,
            end: place + end,
        }),
        None => None,
    }
}
