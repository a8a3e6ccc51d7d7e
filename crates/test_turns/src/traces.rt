//! Traces from their first command to their end, and what the domains show on the way.
use crate::fixtures::Play;
use crate::scenes::{Moment, SCENES, Sight, Until};
use model_core::reply::Reply;
use run_turns::DomainRun;
use std::test::Fail;

// Takes rounds until domain 0 has made so many commands.
fn go_on(play: &mut Play, commands: usize) {
    for _ in 0..1000u32 {
        if play.commands_made() >= commands {
            return;
        }
        play.take_round();
    }
}

// Turns the domains so far: whether all answers are as told.
fn come_to(play: &mut Play, until: Until) -> bool {
    match until {
        Until::Answers(turns) => return play.all_answer(turns),
        Until::Rounds(rounds) => {
            for _ in 0..rounds {
                play.take_round();
            }
        }
        Until::Made(commands) => go_on(play, commands),
    }
    true
}

// Whether the domain of a run shows this.
fn shows(run: &DomainRun, sight: Sight) -> bool {
    let domain = run.domain();
    match sight {
        Sight::Arrivals(arrivals) => domain.arrivals() == arrivals,
        Sight::Holds(used, remembered, registers) => domain.area_used() == used
            && domain.remembered_len() == remembered
            && [domain.register(0), domain.register(1), domain.register(2)].as_slice() == registers,
        Sight::Finalisers(finals, lasts, queued, first) => {
            let waiting = domain.queued();
            let shown = if waiting == 0 {
                None
            } else {
                Some(domain.queue_at(0))
            };
            (domain.finals_len(), domain.lasts_len(), waiting) == (finals, lasts, queued)
                && shown == first
        }
        Sight::Sweeps(spot) => domain.swept().spot == spot,
        Sight::HasEnded(ended) => run.has_ended() == ended,
    }
}

// Whether the last replies of a run are these, behind so many others.
fn has_replied(run: &DomainRun, before: usize, wanted: &[Reply]) -> bool {
    let replies = run.replies();
    let first = replies.len().saturating_sub(wanted.len());
    first == before && &replies[first..] == wanted
}

// Whether a play comes by all moments of the scene.
fn comes_by(play: &mut Play, moments: &[Moment]) -> bool {
    let mut right = true;
    for (until, domain, sight) in moments {
        let told = come_to(play, *until);
        let shown = play.runs.get(*domain).is_some_and(|run| shows(run, *sight));
        right = right && told && shown;
    }
    right
}

#[test]
fn traces_come_by_what_they_show(rt: HostRuntime) -> Result<(), Fail> {
    for (at, scene) in SCENES.iter().enumerate() {
        let mut play = Play::start(rt.alloc(), scene.config, scene.sections)?;
        let come_by = comes_by(&mut play, scene.moments);
        assert!(rt; come_by, "scene {at}");
        let first = play.runs.first().ok_or("no run")?;
        assert!(rt;
            has_replied(first, scene.before, scene.replies),
            "scene {at}"
        );
    }
    Ok(())
}
