// One call, carried out at a desk.
ghost use Rattle.runs.specs.Does.{DoesBoth, answered};
ghost use Rattle.runs.specs.Stands.{stand_of};
ghost use Rattle.runs.specs.declared.call.BothCall.{BothCall};
ghost use Rattle.runs.specs.declared.call.BothCall.TheVariants.{Plain};
ghost use Rattle.std.specs.Prelude.{◌≡◌, length};

use crate::answer::Answer;
use crate::call::{BothCall, Call};
use bounds::setting::SettingBound;
use charges::Charge;
use desks::desk::Desk;
use jobs::refusal::Refusal;
use walks::ways::{Both, Walk};

// A call that a desk carries out, on a job that is opened for these walks.
pub(crate) trait CallOn<C: Charge, W: Walk<C>>: Copy {
    // the same call, of those on a job for both walks
    ghost as_both: { Self → BothCall C };

    fn carry_out(
        self,
        desk: &mut Desk<C, W>,
        sheet: &mut [u16],
        memory: &mut [u8],
        scratch: &mut [C],
    ) -> Result<Answer<C>, Refusal>
        ensures does { DoesBoth C.Charge.kind C.Charge.means (W.Walk.floor desk.old.job.walks) (W.Walk.answer desk.old.job.walks) desk.old.job.number (length scratch.old)
            (stand_of desk.old sheet.old memory.old) (as_both self) (answered result) (stand_of desk.new sheet.new memory.new) }
        ensures same_number { desk.new.job.number ≡ desk.old.job.number }
        ensures same_walks { desk.new.job.walks ≡ desk.old.job.walks };
}

impl<C: Charge, W: Walk<C>> CallOn<C, W> for Call<C> {
    ghost as_both = { Plain };

    fn carry_out(
        self,
        desk: &mut Desk<C, W>,
        sheet: &mut [u16],
        memory: &mut [u8],
        scratch: &mut [C],
    ) -> Result<Answer<C>, Refusal> {
        match self {
            Call::Add { settings } => Ok(Answer::Module(desk.add(sheet, settings)?)),
            Call::Charge { i, k, j, l, clash } => {
                desk.charge(sheet, i, k, j, l, clash)?;
                Ok(Answer::Done)
            }
            Call::Narrow { i, mask } => {
                desk.narrow(i, mask)?;
                Ok(Answer::Done)
            }
            Call::Start { ceiling } => Ok(Answer::Ticket(desk.start(ceiling)?)),
            Call::Sit {
                ticket,
                steps,
                room,
            } => {
                let end = room.min(scratch.len());
                let told = desk.sit(sheet, ticket, steps, &mut scratch[..end])?;
                Ok(Answer::Sat(told))
            }
            Call::Weigh { row } => {
                let (from, end) = row.place(memory);
                Ok(Answer::Charge(desk.weigh(sheet, &memory[from..end])?))
            }
            Call::WhatIf { row, i, k } => {
                let (from, end) = row.place(memory);
                let charge = desk.what_if(sheet, &mut memory[from..end], i, k)?;
                Ok(Answer::Charge(charge))
            }
            Call::Close { ticket, row } => {
                let (from, end) = row.place(memory);
                let closed = desk.close(ticket, &mut memory[from..end])?;
                Ok(Answer::Closed(closed))
            }
        }
    }
}

impl<C: Charge, B: SettingBound<C>> CallOn<C, Both<B>> for BothCall<C> {
    ghost as_both = { λ call. call };

    fn carry_out(
        self,
        desk: &mut Desk<C, Both<B>>,
        sheet: &mut [u16],
        memory: &mut [u8],
        scratch: &mut [C],
    ) -> Result<Answer<C>, Refusal> {
        match self {
            BothCall::Plain(call) => call.carry_out(desk, sheet, memory, scratch),
            BothCall::StartAhead { ceiling } => Ok(Answer::Ticket(desk.start_ahead(ceiling)?)),
        }
    }
}
