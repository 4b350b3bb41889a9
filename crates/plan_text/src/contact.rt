//! Contacts in order.
ghost use Rattle.std.specs.Prelude.{◌≡◌};
ghost use Rattle.plan_text.specs.Timetable.{in_order};

use contact_alloc::Contact;

/// Puts contacts in the order of where they begin, where they end, and the satellites' numbers.
pub fn put_in_order(contacts: &mut Vec<Contact>)
    ensures { contacts.new.items ≡ in_order contacts.old.items }
{
    contacts.sort_unstable();
}
