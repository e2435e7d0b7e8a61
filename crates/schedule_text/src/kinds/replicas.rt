//! Lines on replicas: their clocks and stops, and what faulty ones say.

ghost use Rattle.std.specs.Prelude.{◌≡◌, IfOk, option_copied};
ghost use Rattle.line_fields.specs.Tokens.{tokens_after};
ghost use Rattle.schedule_text.specs.Lines.{clock, vote, second, logged, elect, decide, stop};

use crate::line::Line;
use basil_types::memory::NoMemory;
use line_fields::complaint::{Complaint, read_all3, read_all4, read_all5, read_both};
use line_fields::fields::frames::read_hex;
use line_fields::fields::names::read_name;
use line_fields::fields::numbers::{
    read_client, read_number, read_replica, read_view, read_views, read_write,
};
use line_fields::fields::parties::read_place;
use line_fields::fields::spellings::read_decision;
use line_fields::tokens::{five, seven, six, three};
use std::alloc::Global;

#[tactic(auto, unfolding(crate::specs::Lines::clock))]
/// `clock S R T`
pub fn read_clock(rest: Option<&[u8]>) -> Result<Line, Complaint>
    ensures { result ≡ clock (tokens_after (option_copied rest.entry)) }
{
    let Some((shard, replica, moment)) = three(rest) else {
        return Err(Complaint::Misspelt);
    };
    match read_both(read_place(shard, replica), read_number(moment)) {
        Ok(((shard, replica), moment)) => Ok(Line::Clock {
            shard,
            replica,
            moment,
        }),
        Err(complaint) => Err(complaint),
    }
}

#[tactic(auto, unfolding(crate::specs::Lines::vote))]
/// `vote S R NAME D C`
pub fn read_vote(alloc: Global, rest: Option<&[u8]>) -> Result<Result<Line, Complaint>, NoMemory>
    ensures { IfOk result (λ r. r ≡ vote (tokens_after (option_copied rest.entry))) }
{
    let Some((shard, replica, name, decision, client)) = five(rest) else {
        return Ok(Err(Complaint::Misspelt));
    };
    let fields = read_all4(
        read_place(shard, replica),
        read_name(alloc, name)?,
        read_decision(decision),
        read_client(client),
    );
    match fields {
        Ok(((shard, replica), name, decision, client)) => Ok(Ok(Line::Vote {
            shard,
            replica,
            name,
            decision,
            client,
        })),
        Err(complaint) => Ok(Err(complaint)),
    }
}

#[tactic(auto, unfolding(crate::specs::Lines::second))]
/// `second NAME D R`
pub fn read_second(alloc: Global, rest: Option<&[u8]>) -> Result<Result<Line, Complaint>, NoMemory>
    ensures { IfOk result (λ r. r ≡ second (tokens_after (option_copied rest.entry))) }
{
    let Some((name, decision, replica)) = three(rest) else {
        return Ok(Err(Complaint::Misspelt));
    };
    let fields = read_all3(
        read_name(alloc, name)?,
        read_decision(decision),
        read_replica(replica),
    );
    match fields {
        Ok((name, decision, replica)) => Ok(Ok(Line::Second {
            name,
            decision,
            replica,
        })),
        Err(complaint) => Ok(Err(complaint)),
    }
}

#[tactic(auto, unfolding(crate::specs::Lines::logged))]
/// `logged S R NAME D DECIDED CURRENT C`
pub fn read_logged(alloc: Global, rest: Option<&[u8]>) -> Result<Result<Line, Complaint>, NoMemory>
    ensures { IfOk result (λ r. r ≡ logged (tokens_after (option_copied rest.entry))) }
{
    let Some((shard, replica, name, decision, decided, current, client)) = seven(rest) else {
        return Ok(Err(Complaint::Misspelt));
    };
    let fields = read_all5(
        read_place(shard, replica),
        read_name(alloc, name)?,
        read_decision(decision),
        read_views(decided, current),
        read_client(client),
    );
    match fields {
        Ok(((shard, replica), name, decision, (decided, current), client)) => Ok(Ok(
            Line::Logged {
                shard,
                replica,
                name,
                decision,
                decided,
                current,
                client,
            },
        )),
        Err(complaint) => Ok(Err(complaint)),
    }
}

#[tactic(auto, unfolding(crate::specs::Lines::elect))]
/// `elect S R NAME D VIEW`
pub fn read_elect(alloc: Global, rest: Option<&[u8]>) -> Result<Result<Line, Complaint>, NoMemory>
    ensures { IfOk result (λ r. r ≡ elect (tokens_after (option_copied rest.entry))) }
{
    let Some((shard, replica, name, decision, view)) = five(rest) else {
        return Ok(Err(Complaint::Misspelt));
    };
    let fields = read_all4(
        read_place(shard, replica),
        read_name(alloc, name)?,
        read_decision(decision),
        read_view(view),
    );
    match fields {
        Ok(((shard, replica), name, decision, view)) => Ok(Ok(Line::Elect {
            shard,
            replica,
            name,
            decision,
            view,
        })),
        Err(complaint) => Ok(Err(complaint)),
    }
}

#[tactic(auto, unfolding(crate::specs::Lines::decide))]
/// `decide S R NAME D VIEW Q`
pub fn read_decide(alloc: Global, rest: Option<&[u8]>) -> Result<Result<Line, Complaint>, NoMemory>
    ensures { IfOk result (λ r. r ≡ decide (tokens_after (option_copied rest.entry))) }
{
    let Some((shard, replica, name, decision, view, to)) = six(rest) else {
        return Ok(Err(Complaint::Misspelt));
    };
    let fields = read_all5(
        read_place(shard, replica),
        read_name(alloc, name)?,
        read_decision(decision),
        read_view(view),
        read_replica(to),
    );
    match fields {
        Ok(((shard, replica), name, decision, view, to)) => Ok(Ok(Line::Decide {
            shard,
            replica,
            name,
            decision,
            view,
            to,
        })),
        Err(complaint) => Ok(Err(complaint)),
    }
}

#[tactic(auto, unfolding(crate::specs::Lines::stop))]
/// `stop S R I W HEX`
pub fn read_stop(alloc: Global, rest: Option<&[u8]>) -> Result<Result<Line, Complaint>, NoMemory>
    ensures { IfOk result (λ r. r ≡ stop (tokens_after (option_copied rest.entry))) }
{
    let Some((shard, replica, message, write, bytes)) = five(rest) else {
        return Ok(Err(Complaint::Misspelt));
    };
    let fields = read_all4(
        read_place(shard, replica),
        read_number(message),
        read_write(write),
        read_hex(alloc, bytes)?,
    );
    match fields {
        Ok(((shard, replica), message, write, bytes)) => Ok(Ok(Line::Stop {
            shard,
            replica,
            message,
            write,
            bytes,
        })),
        Err(complaint) => Ok(Err(complaint)),
    }
}
