ghost use Rattle.driver.specs.Seen.{serials};
ghost use Rattle.driver.specs.Called.{Takes};

use aka::Ticket;

// Takes the first ticket of a serial out of those held, if one is held.
pub fn take_ticket(tickets: &mut Vec<Ticket>, serial: u32) -> Option<Ticket>
    ensures { Takes serial (serials tickets.old.items) result (serials tickets.new.items) }
{
    let place = tickets.iter().position(|ticket| ticket.serial() == serial)?;
    Some(tickets.remove(place))
}
