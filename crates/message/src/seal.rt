// A seal, by its meaning.
ghost use Rattle.std.specs.Prelude.{◌≡◌, ℕ, List, length, is_ok, Some};
ghost use Rattle.kinds.specs.declared.refusal.MessageRefusal.TheVariants.{Unopened};
ghost use Rattle.message.specs.Meaning.{Sealing, Opening};
ghost use Rattle.octets.specs.Fronts.{fits, placed};

use kinds::MessageRefusal;

// The seal does not open, or what it opens to has no room.
#[derive(Clone, Copy, PartialEq, Eq, Debug)]
pub struct Unopened;

// By hand, since contracts name the refusal that a `?` makes of it.
impl From<Unopened> for MessageRefusal {
    ghost from_gives = { λ _ r. r ≡ Unopened };

    fn from(_unopened: Unopened) -> MessageRefusal {
        MessageRefusal::Unopened
    }
}

pub trait Seal {
    ghost sealing: { Self → Sealing };

    ghost opening: { Self → Opening };

    // Seals the payload in place: it becomes the body. Answers the tag.
    fn seal(&self, header: &[u8; 16], payload: &mut [u8]) -> [u8; 12]
        ensures body { payload.new ≡ (sealing self.now header.now payload.old).0 }
        ensures tag { result ≡ (sealing self.now header.now payload.old).1 };

    // Opens a body, and puts the payload at the front of the text; the text is untouched where it does not open or has no room. Header,
    // body and tag come apart from the message, and a struct would be taken apart at once; the clause on the text is each seal's to show.
    fn open(
        &self,
        header: &[u8; 16],
        body: &[u8],
        tag: &[u8; 12],
        text: &mut [u8],
    ) -> Result<(), Unopened>
        ensures told { is_ok result ≡ fits (opening self.now header.now body.now tag.now) text.old }
        ensures text { text.new ≡ placed (opening self.now header.now body.now tag.now) text.old };

    // Opening what was sealed under the same header gives the payload.
    ghost reopens: { (k : Self) (h p : List ℕ) → opening k h (sealing k h p).0 (sealing k h p).1 ≡ Some p };

    // A body is as long as its payload, a tag has 12 bytes, and what is opened is as long as its body.
    ghost level: { (k : Self) (h p : List ℕ) → length (sealing k h p).0 ≡ length p };

    ghost twelve: { (k : Self) (h p : List ℕ) → length (sealing k h p).1 ≡ 12 };

    ghost leveled: { (k : Self) (h b t p : List ℕ) → opening k h b t ≡ Some p → length p ≡ length b };
}
