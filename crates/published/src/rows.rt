// Rows of numbers, as they are printed.
ghost use Rattle.std.specs.Prelude.{◌≤◌};

use std::{fmt, io};

// Prints numbers in rows of this width, each behind the names of the sheet that they are of and of what they are.
pub(crate) fn print_rows<N: fmt::Display>(
    rt: &HostRuntime,
    of: &str,
    what: &str,
    width: usize,
    numbers: &[N],
) -> io::Result<()>
    requires { 1 ≤ width }
{
    for row in numbers.chunks(width) {
        print!(rt; "{of}, {what}:")?;
        for number in row {
            print!(rt; " {number}")?;
        }
        rt.println("")?;
    }
    Ok(())
}
