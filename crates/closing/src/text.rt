// The closing line: 7E, holders, parties waiting, counter.

ghost use Rattle.std.specs.Prelude.{◌≡◌, length};
ghost use Rattle.line.specs.Program.{closing};

use counts::counts;
use encoding::answer::Print;
use encoding::signed::twos_complement;
use hub::Hub;
use writer::text::put_line;

pub(crate) fn put_closing(hub: Hub, out: &mut [u8])
    requires { length out.old ≡ 15 }
    ensures { out.new ≡ closing hub }
{
    let c = counts(hub);
    let p = Print {
        code: 0x7E,
        woken: c.waiting,
        number: twos_complement(hub.control.figures.counter),
    };
    put_line(out, c.held as u8, p);
}
