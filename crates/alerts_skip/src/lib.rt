// Quick passes over alerts, as formats_skip has them over leaves.
#![tactic(auto)]

ghost use Rattle.formats.specs.Format.{list};
ghost use Rattle.formats_skip.specs.Promises.Passes.{Passes};
ghost use Rattle.alerts.specs.Alert.{alert};

pub fn past_alert(s: &[u8], at: usize) -> usize
    ensures { Passes alert s.now at result }
{
    let a = formats_skip::past_optional_text(s, at);
    let b = formats_skip::past_optional_text(s, a);
    let c = formats_skip::past_optional_text(s, b);
    let d = formats_skip::past_texts(s, c);
    let e = formats_skip::past_texts(s, d);
    formats_skip::past_texts(s, e)
}

pub fn past_alerts(s: &[u8], at: usize) -> usize
    ensures { Passes (list 256 alert) s.now at result }
{
    let n = formats_read::number(s, at);
    let mut p = n.next;
    for _ in 0..n.value {
        p = past_alert(s, p);
    }
    p
}
