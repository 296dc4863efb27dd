// What messages share: what writing one is answered, a stamp, the head of a frame.
// A message is written into the caller's buffer: refusal 3 where the buffer is shorter than the message, and then nothing changes; else
// the message is in the first octets, and every octet behind it is as it was (`message_parts.written_of`, `message_parts.buffer_of`, in
// numbers `message_parts.written_numbers`). Values are cut to their fields, so no caller can make one write into its neighbour. The
// `requires` here are about lengths alone: six octets of address, and room in the buffer.
#![tactic(auto)]

pub mod parts;
