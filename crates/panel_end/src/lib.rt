// Where a card or a sheet ends that stands in front of bytes: read by the tables that question 4 goes by.
#![tactic(auto)]

ghost use Rattle.std.specs.Prelude.{◌≡◌};
ghost use Rattle.formats_judge.specs.Judged.{judge_to};
ghost use Rattle.panel.specs.End.{form_of, end};

// The kinds of forms.
const CARD: u32 = 0;

const ALERT_SHEET: u32 = 1;

const VEHICLE_SHEET: u32 = 2;

// The end of a kind's form; the questions that it fails are not asked for.
fn judge(kind: u32, bytes: &[u8]) -> Option<(usize, u32)>
    ensures { result ≡ judge_to (form_of kind) bytes.now 0 }
{
    if kind == CARD {
        return panel_card::judge_card(bytes);
    }
    if kind == ALERT_SHEET {
        return panel_questions::judge_alerts(bytes);
    }
    if kind == VEHICLE_SHEET {
        return panel_questions::judge_vehicles(bytes);
    }
    None
}

// How many bytes the form has; 0 where there is none.
pub fn end(kind: u32, bytes: &[u8]) -> usize
    ensures { result ≡ end kind bytes.now }
{
    match judge(kind, bytes) {
        Some((p, n)) => p,
        None => 0,
    }
}
