//! Appending one outbox to another.

ghost use Rattle.std.specs.Prelude.{◌≡◌, ◌≤◌, ◌++◌, length};

use basil_types::list::List;
use basil_types::outbox::Outbox;

/// Appends items for which there is room. Takes no memory.
fn append_items<T: Drop>(list: &mut List<T>, more: List<T>)
    requires { length more.items ≤ list.old.room }
    ensures { list.new.items ≡ list.old.items ++ more.items }
{
    for item in more.into_vec() {
        list.push(item);
    }
}

/// Appends what was sent and signed, for which there is room. Takes no memory.
pub fn append(out: &mut Outbox, more: Outbox)
    requires messages { length more.messages.items ≤ out.old.messages.room }
    requires words { length more.signed.items ≤ out.old.signed.room }
    ensures messages { out.new.messages.items ≡ out.old.messages.items ++ more.messages.items }
    ensures words { out.new.signed.items ≡ out.old.signed.items ++ more.signed.items }
{
    append_items(&mut out.messages, more.messages);
    append_items(&mut out.signed, more.signed);
}
