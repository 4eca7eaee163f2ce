//! Access to words, one at a time.

ghost use Rattle.std.specs.Prelude.{◌≡◌, ℕ};
ghost use Rattle.pv_words.specs.declared.place.Place.{Place};
ghost use Rattle.pv_words.specs.declared.access.Access.{Access};
ghost use Rattle.pv_words.specs.declared.access.Access.TheVariants as access;
ghost use Rattle.pv_words.specs.Each.{OfEach};
ghost use Rattle.pv_words.specs.Plan.{Want};
ghost use Rattle.pv_words.specs.Plan as plan;
ghost use Rattle.pv_words.specs.Memory.{Answers};
ghost use Rattle.pv_words.specs.Port.{Port, PortMay, Leaves, FindsTold, Knows, Turned};

use crate::place::{DomId, Place, Who};

/// A port to 32-bit words that others may change at any moment. Each call but `frames` and `grants` makes
/// one access, which is one atomic step. No call fails.
pub trait Words {
    /// How many frames a domain has; 0 for one that isn't there.
    ghost frames_of: { Self → ℕ → ℕ };

    /// How many grant entries a domain has.
    ghost grants_of: { Self → ℕ → ℕ };

    /// Whose port it is: the device that acts through it, or none where a domain does, and for which domains it
    /// stands; whether it may touch every place in range; of which domains it keeps the grant entries, and which of
    /// their grants are open; the mappings that it lists of each device; and the words that it tells, where it does.
    ghost port: { Self → Port };

    /// Whether the access may be made through this port.
    ghost may: { Self → Want → Type 0 };

    /// What the access, with the word that it found, made of the port.
    ghost makes: { Self → Access → Self → Type 0 };

    /// The word at a place.
    fn load(&mut self, at: Place) -> u32
        requires { may self.old (plan.Load at) }
        ensures { makes self.old (access.Load at result) self.new };

    /// Writes a word.
    fn store(&mut self, at: Place, v: u32)
        requires { may self.old (plan.Store at v) }
        ensures { makes self.old (access.Store at v) self.new };

    /// Writes `new` exactly where the word is `old`, and answers the word that was seen.
    fn swap_if(&mut self, at: Place, old: u32, new: u32) -> u32
        requires { may self.old (plan.Swap at old new) }
        ensures { makes self.old (access.Cas at old new result) self.new };

    /// Clears the mask's bits, and answers the word from before.
    fn clear(&mut self, at: Place, mask: u32) -> u32
        requires { may self.old (plan.Clear at mask) }
        ensures { makes self.old (access.Clear at mask result) self.new };

    /// How many frames the domain has.
    fn frames(&self, dom: DomId) -> u32
        ensures { result ≡ frames_of self.now dom.0 };

    /// How many grant entries the domain has.
    fn grants(&self, dom: DomId) -> u32
        ensures { result ≡ grants_of self.now dom.0 };

    /// No access changes how many frames and grant entries there are.
    ghost keeps_frames: { OfEach makes (λ old a new. (d : ℕ) → frames_of new d ≡ frames_of old d) };

    ghost keeps_grants: { OfEach makes (λ old a new. (d : ℕ) → grants_of new d ≡ grants_of old d) };

    /// What the port may touch: every place in range but the entries that it keeps; or for a device the words of the
    /// pages that it lists, and the entries that it maps and unmaps; or for a domain the domain's own words, among
    /// them the entries that the port keeps only as permits and ends do.
    ghost allows: { (w : Self) (want : Want) → PortMay (frames_of w) (grants_of w) (port w) want → may w want };

    /// An access leaves it the port of the same one, which may touch what it might. It lists the mapping that the
    /// access began, and the page that it got, with those of the device that acted; and it lists the mappings of one
    /// reference and mode until as many clears of them were made as there are of them. Of a domain whose entries it
    /// keeps it knows which grants are open, and tells the words that the domain stored or loaded, up to where their
    /// frame is opened for writing.
    ghost leaves: { OfEach makes (λ old a new. Leaves (frames_of old) (grants_of old) (port old) a (port new)) };

    /// Where it tells a word, this is the one that an access finds. In an entry that it keeps an access finds a word
    /// that fits whether the grant is open.
    ghost tells: { OfEach makes (λ old a new. FindsTold (port old) a) };
}

/// Words that only the calls made through this port change: each answer is the word last written there. The port is
/// handed from one device or domain to another.
pub trait Machine: Words {
    /// The word at each place.
    ghost word: { Self → Place → ℕ };

    /// Whether it is whole, and so can be handed on.
    ghost whole: { Self → Type 0 };

    /// Which devices it knows, each as one of a domain.
    ghost knows_device: { Self → ℕ → ℕ → Type 0 };

    /// Which domains it knows.
    ghost knows_domain: { Self → ℕ → Type 0 };

    /// From here on the port is that of the device or the domain. No word changes, the mappings of a device that were
    /// listed before are listed still, and what is told, and open, is so still.
    fn turn(&mut self, who: Who)
        requires whole { whole self.old }
        requires known { Knows (knows_device self.old) (knows_domain self.old) who }
        ensures turned { Turned (Self.port self.old) (knows_device self.old) who (Self.port self.new) }
        ensures words { (at : Place) → word self.new at ≡ word self.old at }
        ensures frames { (d : ℕ) → Self.frames_of self.new d ≡ Self.frames_of self.old d }
        ensures grants { (d : ℕ) → Self.grants_of self.new d ≡ Self.grants_of self.old d }
        ensures whole { whole self.new }
        ensures devices { (d dom : ℕ) → knows_device self.old d dom → knows_device self.new d dom }
        ensures domains { (d : ℕ) → knows_domain self.old d → knows_domain self.new d };

    /// An access finds the word that stands there, and changes that word alone.
    ghost remembers: { OfEach Self.makes (λ old a new. Answers (Self.frames_of old) (Self.grants_of old) (word old) a (word new)) };

    /// No access changes whether it is whole, nor whom it knows.
    ghost keeps_whole: { OfEach Self.makes (λ old a new. whole old → whole new) };

    ghost keeps_devices: { OfEach Self.makes (λ old a new. (d dom : ℕ) → knows_device old d dom → knows_device new d dom) };

    ghost keeps_domains: { OfEach Self.makes (λ old a new. (d : ℕ) → knows_domain old d → knows_domain new d) };
}
