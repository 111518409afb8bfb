// Text put into a buffer, from a place on: bytes, and a number's digits.
ghost use Rattle.std.specs.Prelude.{◌+◌, ◌≤◌, length};
ghost use Rattle.print_text.specs.Text.{decimal};
ghost use Rattle.print_text.specs.Inner.Putting.{Put};

// Copies the bytes, and returns the place behind them.
pub fn put(bytes: &[u8], out: &mut [u8], at: usize) -> usize
    requires { at + length bytes.now ≤ length out.old }
    ensures { Put bytes.now (length bytes.now) at out.old result out.new }
{
    let end = at + bytes.len();
    out[at..end].copy_from_slice(bytes);
    end
}

// The number in decimal.
pub fn put_number(n: u64, out: &mut [u8], at: usize) -> usize
    requires { at + 20 ≤ length out.old }
    ensures { Put (decimal n) 20 at out.old result out.new }
{
    let mut digits = [0u8; 20];
    let count = io::decimal(n, &mut digits);
    put(&digits[..count], out, at)
}
