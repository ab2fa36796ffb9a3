// Replies as texts.

use ld_base::{Reply, Room};

/// What a reply tells: of an act its scenario first. A stint is put aside.
#[derive(Clone, Copy, Debug)]
pub enum Said {
    Run(u16, u32, u64, u64),
    Dropped(u16, u64),
    Late(u16, u64),
    Took(u16, u32),
    Released(u16, u32),
    Stopped(u16),
    Closed(u16),
    Noted,
    Denied,
    Go,
    Halt,
    Alive(bool),
    Wait(u64),
    Over,
    Full(Room, u64, u64),
    NotOut,
}

/// What a reply tells.
pub fn told(reply: Reply) -> Said {
    match reply {
        Reply::Run(stint) => {
            let (scenario, user) = (stint.scenario(), stint.user());
            let told = Said::Run(scenario, user, stint.item(), stint.until());
            stint.spend();
            told
        }
        Reply::Dropped { scenario, item } => Said::Dropped(scenario, item),
        Reply::Late { scenario, item } => Said::Late(scenario, item),
        Reply::Took { scenario, user } => Said::Took(scenario, user),
        Reply::Released { scenario, user } => Said::Released(scenario, user),
        Reply::Stopped { scenario } => Said::Stopped(scenario),
        Reply::Closed { scenario } => Said::Closed(scenario),
        Reply::Noted => Said::Noted,
        Reply::Denied => Said::Denied,
        Reply::Go => Said::Go,
        Reply::Halt => Said::Halt,
        Reply::Alive {
            paused: _,
            stopped,
            vus: _,
            vus_max: _,
        } => Said::Alive(stopped),
        Reply::Wait(moment) => Said::Wait(moment),
        Reply::Over => Said::Over,
        Reply::Full {
            room,
            needed,
            limit,
        } => Said::Full(room, needed, limit),
    }
}
