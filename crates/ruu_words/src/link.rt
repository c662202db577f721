//! Link words.
ghost use Rattle.std.specs.Prelude.{◌≡◌, ◌<◌, ◌↔◌, IsNone, IfSome};
ghost use Rattle.ruu_words.specs.Fields.{tag_count, pack_link, producer_of, consumer_of};

/// The content of a link word: which consumer waits for the value of which producer.
#[derive(Clone, Copy)]
pub struct LinkWord {
    /// The tag of the tenant that makes the value.
    pub producer: u32,
    /// The tag of the tenant that waits for it.
    pub consumer: u32,
}

impl LinkWord {
    /// The word: bits 63 to 36 are the producer's tag, 35 to 8 the consumer's, 7 to 0 zero.
    pub fn pack(self) -> u64
        requires producer { self.producer < tag_count }
        requires consumer { self.consumer < tag_count }
        ensures { result ≡ pack_link self.producer self.consumer }
    {
        (u64::from(self.producer) << 36) + (u64::from(self.consumer) << 8)
    }

    /// The fields of a word, or none where it is no link.
    pub fn unpack(word: u64) -> Option<LinkWord>
        ensures none { IsNone result ↔ (word ≡ 0) }
        ensures producer { IfSome result (λ l. l.producer ≡ producer_of word) }
        ensures consumer { IfSome result (λ l. l.consumer ≡ consumer_of word) }
        ensures small { IfSome result (λ l. l.consumer < tag_count) }
    {
        if word == 0 {
            return None;
        }
        let consumer = (word >> 8) & 0xfff_ffff;
        Some(LinkWord {
            producer: (word >> 36) as u32,
            consumer: consumer as u32,
        })
    }
}
