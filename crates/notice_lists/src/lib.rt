// The notices of an answer.
#![tactic(auto)]

ghost use Rattle.text.specs.Pages.{Room, Within};

use records::Notices;
use text::{Label, Page, Value};

pub fn notices(page: &mut Page, n: &Notices)
    requires { Room page.old 416 }
    ensures { Within page.old page.new 416 }
{
    let codes = &n.items[..n.len.min(n.items.len())];
    page.list::<13, 32, _, _>(Label::Notices, Label::Comma, codes, |page, label, code| {
        page.field(label, Value::Code(u64::from(code)));
    });
}
