// The lines in which a program prints what load, the calls that act and propagate answer, put on a page.
#![tactic(auto)]

ghost use Rattle.columns.specs.Answers.{answer_of};
ghost use Rattle.calls.specs.Calls.{refused_returned, done_returned};
ghost use Rattle.pages.specs.Page.{Puts};
ghost use Rattle.answer_lines.specs.Lines.{refused_line, plan_line, done_line, stopped_line, propagated_line};

use calls::Refusal;
use pages::Page;
use propagate::Propagated;
use types::Counters;

// Of a call after load.
pub fn put_refused(page: &mut Page<'_>, refusal: Refusal)
    ensures { Puts page.old page.new (refused_line (refused_returned refusal).code (refused_returned refusal).value) }
{
    page.put_pair(b"refused ", refusal.code(), refusal.value());
}

pub fn put_plan(page: &mut Page<'_>, loaded: Result<Counters, columns::Refusal>)
    ensures { Puts page.old page.new (plan_line (answer_of loaded)) }
{
    match loaded {
        Ok(_) => page.put_pair(b"plan ", 0, 0),
        Err(refusal) => {
            let answer = refusal.answer();
            page.put_pair(b"plan ", answer.code, answer.sentence.0);
        }
    }
}

pub fn put_done(page: &mut Page<'_>, name: &[u8], answer: Result<Counters, Refusal>)
    ensures { Puts page.old page.new (done_line name.now (done_returned answer)) }
{
    match answer {
        Ok(_) => page.put_pair(name, 0, 0),
        Err(refusal) => page.put_pair(name, refusal.code(), 0),
    }
}

// Of propagate, where it is not refused.
pub fn put_stopped(page: &mut Page<'_>, answer: Propagated)
    ensures { Puts page.old page.new (stopped_line answer) }
{
    match answer {
        Propagated::Still(count, _) => page.put_line(b"still ", count),
        Propagated::Conflict(sentence, count, _) => {
            page.put_pair(b"conflict ", count, sentence.0);
        }
    }
}

pub fn put_propagated(page: &mut Page<'_>, answer: Result<Propagated, Refusal>)
    ensures { Puts page.old page.new (propagated_line answer) }
{
    match answer {
        Ok(stopped) => put_stopped(page, stopped),
        Err(refusal) => put_refused(page, refusal),
    }
}
