ghost use Rattle.std.specs.Prelude.{◌≡◌, IfOk, []};
ghost use Rattle.dsv_outside.specs.Causes.{Rose};
ghost use Rattle.davsvn_run.specs.Statuses.{number_of, end_line, TookLine};

use crate::end::End;
use dsv_base::NoMemory;
use dsv_outside::Sink;
use std::alloc::Global;

/// The exit status of a process.
#[derive(Clone, Copy, Debug, PartialEq, Eq)]
pub struct Status(pub u8);

impl Status {
    /// Memory was wanting.
    pub const NO_MEMORY: Status = Status(8);
}

/// The status of an end.
pub fn status_of(end: &End) -> Status
    ensures { result.0 ≡ number_of end.now }
{
    match end {
        End::Well => Status(0),
        End::Usage => Status(1),
        End::BadFile(..) => Status(2),
        End::BrokeOff => Status(3),
        End::ReadFault => Status(4),
        End::WriteFault => Status(5),
        End::FileFault(_) => Status(6),
        End::NoMemory => Status::NO_MEMORY,
        End::OtherRight => Status(9),
    }
}

/// Puts the line of an end, in one call, unless memory runs out.
pub fn put_line<E: Sink>(alloc: Global, end: &End, errors: &mut E)
    ensures line { TookLine (E.taken errors.old) (E.taken errors.new) (end_line end.now)
        (Rose (E.faults errors.old) (E.faults errors.new)) }
    ensures quiet { end_line end.now ≡ [] → errors.new ≡ errors.old }
{
    if let End::Well | End::OtherRight = end {
        return;
    }
    let line = match end_line(alloc, end) {
        Ok(line) => line,
        Err(NoMemory) => return,
    };
    errors.put(line.as_slice());
}

fn end_line(alloc: Global, end: &End) -> Result<Vec<u8>, NoMemory>
    ensures { IfOk result (λ line. line.items ≡ end_line end.now) }
{
    let mut line = Vec::new(alloc);
    match end {
        End::Well | End::OtherRight => {}
        End::Usage => line.extend_from_slice(b"davsvn: usage\n")?,
        End::BadFile(name, number) => {
            let number = format!(in alloc; "{number}")?;
            line.extend_from_slice(b"davsvn: ")?;
            line.extend_from_slice(name.get())?;
            line.extend_from_slice(b": line ")?;
            line.extend_from_slice(number.as_bytes())?;
            line.extend_from_slice(b"\n")?;
        }
        End::BrokeOff => line.extend_from_slice(b"davsvn: input broke off\n")?,
        End::ReadFault => line.extend_from_slice(b"davsvn: read fault\n")?,
        End::WriteFault => line.extend_from_slice(b"davsvn: write fault\n")?,
        End::FileFault(name) => {
            line.extend_from_slice(b"davsvn: file fault: ")?;
            line.extend_from_slice(name.get())?;
            line.extend_from_slice(b"\n")?;
        }
        End::NoMemory => line.extend_from_slice(b"davsvn: no memory\n")?,
    }
    Ok(line)
}
