//! Steps and bytes fit their types: a law of histories takes no other than a program can have.
ghost use Rattle.std.specs.Prelude.{All, IfSome};
ghost use Rattle.scm_text.specs.Fold.{HasNoZero};
ghost use Rattle.scm_kept.specs.Fitting.{AllFit, AreBytes, AreBytesIn, FitsDelay};
ghost use Rattle.scm_kept.specs.Fitting.{FitsChange, FitsCreation, FitsLevel, FitsRequest};
ghost use Rattle.scm_kept.specs.Fitting.{FitsStep, FitsTrigger, AreUnits, IsTextIn};
ghost use Rattle.service_record.specs.Spelling.{FitsNumber, IsSubtype};

use scm_model::{Action, ChangeService, Info, NewService, Request, Step, TriggerIn};
use scm_text::{Items, WText};

fn units_fit(units: &[u16])
    requires { HasNoZero units.now }
    ensures { AreUnits units.now }
{}

fn text_fits(text: &WText)
    ensures { AreUnits text.now }
{
    units_fit(text.units());
}

fn given_text_fits(given: &Option<WText>)
    ensures { IsTextIn given.now }
{
    if let Some(text) = given {
        text_fits(text);
    }
}

pub fn bytes_fit(bytes: &[u8])
    ensures { AreBytes bytes.now }
{}

fn given_bytes_fit(given: &Option<Items<u8>>)
    ensures { AreBytesIn given.now }
{
    if let Some(bytes) = given {
        bytes_fit(bytes.as_slice());
    }
}

fn creation_fits(new: &NewService)
    ensures { FitsCreation new.now }
{
    text_fits(&new.name);
    given_text_fits(&new.display);
    text_fits(&new.path);
    given_text_fits(&new.group);
    given_bytes_fit(&new.needs);
}

fn change_fits(change: &ChangeService)
    ensures { FitsChange change.now }
{
    given_text_fits(&change.display);
    given_text_fits(&change.path);
    given_text_fits(&change.group);
    given_bytes_fit(&change.needs);
}

fn number_fits(number: u32)
    ensures { FitsNumber number }
{}

fn delay_fits(action: &Action)
    ensures { FitsDelay action.now }
{
    number_fits(action.delay);
}

fn delays_fit(actions: &[Action])
    ensures { All FitsDelay actions.now }
{
    for action in actions {
        delay_fits(action);
    }
}

fn given_delays_fit(given: &Option<Items<Action>>)
    ensures { IfSome given.now (All FitsDelay) }
{
    if let Some(actions) = given {
        delays_fit(actions.as_slice());
    }
}

fn subtype_fits(subtype: &[u8; 16])
    ensures { IsSubtype subtype.now }
{}

fn trigger_fits(asked: &TriggerIn)
    ensures { FitsTrigger asked.now }
{
    number_fits(asked.action);
    if let Some(subtype) = &asked.subtype {
        subtype_fits(subtype);
    }
}

fn triggers_fit(list: &[TriggerIn])
    ensures { All FitsTrigger list.now }
{
    for asked in list {
        trigger_fits(asked);
    }
}

fn level_fits(asked: &Info)
    ensures { FitsLevel asked.now }
{
    match asked {
        Info::Description(text) => given_text_fits(text),
        Info::Failure {
            reset,
            command,
            actions,
        } => {
            number_fits(*reset);
            given_text_fits(command);
            given_delays_fit(actions);
        }
        Info::Triggers(list) => triggers_fit(list.as_slice()),
        _ => {}
    }
}

fn request_fits(asked: &Request)
    ensures { FitsRequest asked.now }
{
    match asked {
        Request::Create(new) => creation_fits(new),
        Request::Change(change) => change_fits(change),
        Request::Change2 { handle: _, info } => level_fits(info),
        _ => {}
    }
}

pub fn step_fits(entry: &(u64, Step))
    ensures { FitsStep entry.now.1 }
{
    match &entry.1 {
        Step::Call { request, .. } => request_fits(request),
        _ => {}
    }
}

/// The requests of steps fit their types.
pub fn steps_fit(steps: &[(u64, Step)])
    ensures { AllFit steps.now }
{
    for entry in steps {
        step_fits(entry);
    }
}
