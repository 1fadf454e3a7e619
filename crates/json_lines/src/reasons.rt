// The reasons of the totals: each that refused a file, by its number, with how many.
ghost use Rattle.std.specs.Prelude.{◌*◌, ◌≤◌, cond, eqb, length, drop};
ghost use Rattle.rules.specs.Printout.{bytes};
ghost use Rattle.lines.specs.Writing.{Room, Puts};
ghost use Rattle.json_lines.specs.Objects.{reason_text, reasons_on};

use lines::OpenLine;
use members::put_number;

fn put_quote(line: &mut OpenLine, told: usize)
    requires { Room 2 line.old }
    ensures { Puts 2 (cond (eqb told 0) (bytes "\"") (bytes ",\"")) line.old line.new }
{
    if told == 0 {
        line.put_text(b"\"");
    } else {
        line.put_text(b",\"");
    }
}

fn put_reason(line: &mut OpenLine, told: usize, reason: usize, n: u64)
    requires { Room 44 line.old }
    ensures { Puts 44 (reason_text told reason n) line.old line.new }
{
    if n == 0 {
        return;
    }
    put_quote(line, told);
    line.put_decimal(reason);
    put_number(line, b"\":", n);
}

pub fn put_reasons(line: &mut OpenLine, counts: &[u64])
    requires { (length counts.now ≤ 4096) × Room (44 * length counts.now) line.old }
    ensures { Puts (44 * length counts.now) (reasons_on 0 1 (drop 1 counts.now)) line.old line.new }
{
    let mut told: usize = 0;
    for reason in 1..counts.len() {
        let n = counts[reason];
        put_reason(line, told, reason, n);
        if n != 0 {
            told += 1;
        }
    }
}
