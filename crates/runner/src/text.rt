// Writing bytes, numbers and lines to a lent output.
ghost use Rattle.std.specs.Prelude.{◌+◌, ◌<◌, ◌≤◌, [], ◌∷◌, length, decimal};
ghost use Rattle.runner.specs.Lines.{line, none_line};
ghost use Rattle.runner.specs.Output.{Wrote};

// Each call writes from `at` on, and answers the place behind what it wrote.
fn write_byte(out: &mut [u8], at: usize, byte: u8) -> usize
    requires { at < length out.old }
    ensures { Wrote out.old at (byte ∷ []) out.new result }
{
    out[at] = byte;
    at + 1
}

// A number in decimal.
fn write_number(out: &mut [u8], at: usize, number: usize) -> usize
    requires { at + length (decimal number) ≤ length out.old }
    ensures { Wrote out.old at (decimal number) out.new result }
{
    if number < 10 {
        return write_byte(out, at, b'0' + number as u8);
    }
    let last = write_number(out, at, number / 10);
    write_byte(out, last, b'0' + (number % 10) as u8)
}

// A letter, and the numbers, each behind a space.
pub(crate) fn write_line(out: &mut [u8], at: usize, letter: u8, numbers: &[usize]) -> usize
    requires { at + length (line (letter ∷ []) numbers.now) ≤ length out.old }
    ensures { Wrote out.old at (line (letter ∷ []) numbers.now) out.new result }
{
    let mut end = write_byte(out, at, letter);
    for number in numbers {
        let spaced = write_byte(out, end, b' ');
        end = write_number(out, spaced, *number);
    }
    write_byte(out, end, b'\n')
}

// A letter, and "-" for no answer.
pub(crate) fn write_none(out: &mut [u8], at: usize, letter: u8) -> usize
    requires { at + 4 ≤ length out.old }
    ensures { Wrote out.old at (none_line (letter ∷ [])) out.new result }
{
    let end = write_byte(out, at, letter);
    let end = write_byte(out, end, b' ');
    let end = write_byte(out, end, b'-');
    write_byte(out, end, b'\n')
}
