// A cast: the panel stores the steps of the ramp and says that they are ready, and the heater throws a step out while the update of it is on its way.
use crate::names::{FIRST_STEP, Line, READY, Role, SECOND_STEP};
use crate::oven::{Chip, Oven};
use fabric::Word;

// What the heater stores to the line of the reading until the probe has read.
const NO_READING: Word = 9999;

const READING: Word = 148;

// All that the chips do, and each delivery, in a fixed order.
pub(crate) fn cast(oven: &mut Oven) {
    let panel = oven.claim(Role::Panel);
    let heater = oven.claim(Role::Heater);
    let probe = oven.claim(Role::Probe);
    let heater = load_last_cast(oven, heater);
    let probe = fetch(oven, probe, Line::ReadyWord);
    let panel = store_steps(oven, panel);
    let heater = throw_step_out(oven, heater);
    let heater = wait_for_ready(oven, heater);
    let heater = oven.load(heater, Line::SecondStep);
    // The step that was thrown out has to come from the hub, and comes behind the probe's reading.
    let heater = oven.load(heater, Line::FirstStep);
    let probe = report(oven, probe);
    oven.up(Role::Heater);
    oven.up(Role::Heater);
    let heater = oven.turn_until_ready(heater);
    let heater = oven.load(heater, Line::Reading);
    let probe = fetch(oven, probe, Line::FirstStep);
    let panel = fetch(oven, panel, Line::Reading);
    oven.hand_back(panel);
    oven.hand_back(heater);
    oven.hand_back(probe);
}

// A load of a line that the chip does not hold: the hub answers it, and the chip turns until the word is there.
fn fetch(oven: &mut Oven, chip: Chip, line: Line) -> Chip {
    let role = chip.role();
    let chip = oven.load(chip, line);
    oven.up(role);
    oven.turn_until_ready(chip)
}

// The heater has the steps and the ready word of the last cast, all zero.
fn load_last_cast(oven: &mut Oven, heater: Chip) -> Chip {
    let heater = fetch(oven, heater, Line::FirstStep);
    let heater = fetch(oven, heater, Line::SecondStep);
    fetch(oven, heater, Line::ReadyWord)
}

fn store_steps(oven: &mut Oven, panel: Chip) -> Chip {
    let panel = oven.store(panel, Line::FirstStep, FIRST_STEP);
    let panel = oven.store(panel, Line::SecondStep, SECOND_STEP);
    oven.store(panel, Line::ReadyWord, READY)
}

fn throw_step_out(oven: &mut Oven, heater: Chip) -> Chip {
    // The update of the first step is on its way to the heater, and then so is the acknowledgement of the heater's own store.
    oven.up(Role::Panel);
    let heater = oven.store(heater, Line::Reading, NO_READING);
    oven.up(Role::Heater);
    // The eviction crosses both. The reading cannot go while it is not acknowledged.
    let heater = oven.evict(heater, Line::FirstStep);
    let heater = oven.evict(heater, Line::Reading);
    oven.up(Role::Panel);
    oven.up(Role::Panel);
    heater
}

// The heater loads the ready word until it is that of the new cast. Between two loads it is handed a message that is on its way.
fn wait_for_ready(oven: &mut Oven, heater: Chip) -> Chip {
    let mut heater = oven.load(heater, Line::ReadyWord);
    for _ in 0..oven.waiting(Role::Heater) {
        if heater.word() == Some(READY) {
            break;
        }
        oven.down(Role::Heater);
        heater = oven.load(heater, Line::ReadyWord);
    }
    heater
}

// The probe sees that the cast is ready, and stores what it reads.
fn report(oven: &mut Oven, probe: Chip) -> Chip {
    oven.down(Role::Probe);
    let probe = oven.load(probe, Line::ReadyWord);
    let probe = oven.store(probe, Line::Reading, READING);
    oven.up(Role::Probe);
    probe
}
