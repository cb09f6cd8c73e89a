// Which of the breaker's calls a packet is for, for C.
ghost use Rattle.capi.specs.PacketWords.{CallsFor};

// The call for the packet in the 25 words that flasknib_read_compound gave, where `kept` is of its receiver. Gives 0, 6 words at the front of `call`,
// and what is kept then in the place of what was; or refusal 9 for other words, or 12 where `call` has fewer.
#[unsafe(no_mangle)]
pub extern "C" fn flasknib_breaker_call(found: &[u64], kept: &mut [u64], call: &mut [u64]) -> u8
    ensures { CallsFor found.now kept.old call.old result kept.new call.new }
{
    capi::packet_calls::flasknib_breaker_call(found, kept, call)
}
