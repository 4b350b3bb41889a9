//! Laws of certified rows.
ghost use Rattle.plan_core.specs.NoneLost.{LongContactsAreVisible};

/// No contact is lost: where some solution is above the mask at each instant of a stretch that is longer than the
/// resolution, this stretch has an instant in common with a visible span of the certified row, if the row is spans.
pub fn long_contacts_are_visible()
    ensures { LongContactsAreVisible }
{}
