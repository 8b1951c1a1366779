// What a history has, a letter for each entry.
use scm_model::Step;
use scm_trail::Trail;
use test_books::MOMENT;

/// The letter of a step that such a history has.
fn letter(step: &Step) -> u8 {
    match step {
        Step::Joined { .. } => b'J',
        Step::Call { .. } => b'C',
        Step::EndStart { .. } => b'S',
        Step::LaunchTaken => b'T',
        Step::Launched { .. } => b'L',
        Step::Report { .. } => b'R',
        Step::Ended { .. } => b'E',
        Step::Tick => b'D',
        Step::Gone { .. } => b'G',
        _ => b'?',
    }
}

/// The letter of an entry, whose moment is to be that of the clock.
fn letter_of(entry: (u64, Step)) -> u8 {
    let (moment, step) = entry;
    let letter = if moment == MOMENT {
        letter(&step)
    } else {
        b'!'
    };
    drop(step);
    letter
}

/// Puts the letter of each entry. Whether there is memory for all.
pub fn put_letters(trail: &Trail, letters: &mut Vec<u8>) -> bool {
    for place in trail.past()..trail.len() {
        let Ok(entry) = trail.entry(place) else {
            return false;
        };
        if letters.push(letter_of(entry)).is_err() {
            return false;
        }
    }
    true
}
