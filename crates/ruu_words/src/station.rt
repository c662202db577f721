//! Station words.
ghost use Rattle.std.specs.Prelude.{◌≡◌, ◌<◌, ◌≤◌, ◌+◌, ◌^◌};
ghost use Rattle.inorder.specs.Replies.{last_tag};
ghost use Rattle.ruu_words.specs.Fields.{tag_count, pack, tag_of, state_of, word_value};
ghost use Rattle.ruu_words.specs.States.{state_count, state_code};
ghost use Rattle.ruu_words.specs.declared.station.StationState.TheVariants.{Stop};

/// The state of a station: how far its last tenant has come.
#[derive(Clone, Copy, PartialEq)]
pub enum StationState {
    /// No tenant is live here. The tag is the next tenant's.
    Free,
    Open,
    Busy,
    /// A load or store with its address.
    Addr,
    Done,
    /// A branch that goes on elsewhere than predicted.
    Miss,
    Stop,
}

impl StationState {
    /// The number of the state in a word.
    pub fn code(self) -> u64
        ensures code { result ≡ state_code self }
        ensures small { result < state_count }
    {
        match self {
            StationState::Free => 0,
            StationState::Open => 1,
            StationState::Busy => 2,
            StationState::Addr => 3,
            StationState::Done => 4,
            StationState::Miss => 5,
            StationState::Stop => 6,
        }
    }

    /// The state with this number. A number that no state has reads as `Stop`.
    pub fn of(code: u64) -> StationState
        ensures state { code < state_count → state_code result ≡ code }
        ensures other { state_count ≤ code → result ≡ Stop }
    {
        match code {
            0 => StationState::Free,
            1 => StationState::Open,
            2 => StationState::Busy,
            3 => StationState::Addr,
            4 => StationState::Done,
            5 => StationState::Miss,
            _ => StationState::Stop,
        }
    }
}

/// The content of a station's word.
#[derive(Clone, Copy)]
pub struct StationWord {
    pub tag: u32,
    pub state: StationState,
    /// The address where the state is `Addr`, the value or next pc where it is `Done`, the next pc
    /// where it is `Miss`, the code of the stop where it is `Stop`. A free station keeps the value
    /// that its last tenant left. Else it is 0.
    pub value: u32,
}

impl StationWord {
    /// The word: bits 63 to 36 are the tag, 35 to 32 the state, 31 to 0 the value.
    pub fn pack(self) -> u64
        requires tag { self.tag < tag_count }
        ensures { result ≡ pack self.tag (state_code self.state) self.value }
    {
        let tag = u64::from(self.tag);
        let state = self.state.code();
        (tag << 36) + (state << 32) + u64::from(self.value)
    }

    /// The fields of a word. A state's number that no state has reads as `Stop`.
    pub fn unpack(word: u64) -> StationWord
        ensures tag { result.tag ≡ tag_of word }
        ensures state { state_of word < state_count → state_code result.state ≡ state_of word }
        ensures other { state_count ≤ state_of word → result.state ≡ Stop }
        ensures small { result.tag < tag_count }
        ensures value { result.value ≡ word_value word }
    {
        let state = StationState::of((word >> 32) & 15);
        StationWord {
            tag: (word >> 36) as u32,
            state,
            value: (word & 0xffff_ffff) as u32,
        }
    }

    /// The word of a station whose tenant has left: free, with the next tag.
    pub fn left(self, value: u32) -> StationWord
        requires tag { self.tag < last_tag }
        ensures tag { result.tag ≡ self.tag + 1 }
        ensures state { state_code result.state ≡ 0 }
        ensures value { result.value ≡ value }
    {
        StationWord {
            tag: self.tag + 1,
            state: StationState::Free,
            value,
        }
    }
}
