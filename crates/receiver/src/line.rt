// The receive side beside its queue: overrun, the quiet count, an arrival's fate, and LSR.
ghost use Rattle.std.specs.Prelude.{◌≡◌, ◌<◌, ◌≤◌};
ghost use Rattle.receiver.specs.Line.{line_arrived, line_read, line_cleared, line_quieter, fate_number, lsr_of};

use crate::arrival::Gate;
use bits::{chosen, joined};
use registers::Register;

#[repr(C)]
#[derive(Clone, Copy)]
pub struct Line {
    pub overrun: bool,
    pub quiet: u8,
}

impl Line {
    // After an arrival that the queue kept or was not offered, or that it lost.
    #[tactic(auto, unfolding(crate::specs::Line::line_arrived))]
    pub fn arrived(self, kept: bool) -> Line
        ensures { result ≡ line_arrived self kept }
    {
        Line {
            overrun: self.overrun | !kept,
            quiet: 0,
        }
    }

    // After a register is read.
    #[tactic(auto, using(registers::specs::Laws::equal_is_same), unfolding(crate::specs::Line::line_read))]
    pub fn read(self, register: Register) -> Line
        ensures { result ≡ line_read self register }
    {
        Line {
            overrun: self.overrun & (register != Register::Lsr),
            quiet: chosen(register == Register::RhrThr, 0, self.quiet),
        }
    }

    // After a write that clears the receive queue, or does not.
    #[tactic(auto, unfolding(crate::specs::Line::line_cleared))]
    pub fn cleared(self, clears: bool) -> Line
        ensures { result ≡ line_cleared self clears }
    {
        Line {
            quiet: chosen(clears, 0, self.quiet),
            ..self
        }
    }

    // After a quiet character time.
    #[tactic(auto, using(bits::specs::Conditions::from_one_if), unfolding(crate::specs::Line::line_quieter))]
    pub fn quieter(self) -> Line
        requires { self.quiet ≤ 4 }
        ensures { result ≡ line_quieter self }
    {
        Line {
            quiet: self.quiet + u8::from(self.quiet < 4),
            ..self
        }
    }
}

// An arrival's fate by the gate and by whether the queue kept it, told by document 01's number, which `fate_number` states: it is the
// reply.
#[tactic(auto, unfolding(crate::specs::Line::fate_number))]
pub fn fate(gate: Gate, kept: bool) -> u16
    ensures { result ≡ fate_number gate kept }
{
    match gate {
        Gate::Passes if kept => 0,
        Gate::Passes => 1,
        Gate::Off => 2,
        Gate::Elsewhere => 3,
        Gate::Xoff | Gate::Xon => 4,
    }
}

// What LSR is made of.
#[derive(Clone, Copy)]
pub struct Status {
    pub ready: bool,
    pub overrun: bool,
    pub mark: u8,
    pub sent: bool,
    pub idle: bool,
    pub error: bool,
}

impl Status {
    #[tactic(auto, using(bits::specs::Conditions::from_one_if, crate::proofs::Sums::lsr_sum))]
    pub fn lsr(self) -> u8
        requires { self.mark < 8 }
        ensures { result ≡ lsr_of self }
    {
        let low = joined(u8::from(self.ready), 1, u8::from(self.overrun));
        let marked = joined(low, 2, self.mark);
        let thr = joined(marked, 5, u8::from(self.sent));
        let all = joined(thr, 6, u8::from(self.idle));
        joined(all, 7, u8::from(self.error))
    }
}
