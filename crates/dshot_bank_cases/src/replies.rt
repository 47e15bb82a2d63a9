// The replies of four lanes as numbers of a line.

use crate::part;
use crate::part::Part;
use case_text::answers::of_read;
use dshot_bank::replies::DshotReplies;

// 0 if there are none. Otherwise 1, and for each lane a refusal's number, and the kind and the number of a reply.
pub(crate) fn of_taken(taken: Option<DshotReplies>) -> Part {
    let Some(replies) = taken else {
        return part::of(&[0]);
    };
    let lanes = replies.map(|reply| {
        let told = of_read(reply);
        let [kind, number] = told.numbers;
        [told.refusal, kind, number]
    });
    let mut part = part::of(&[1]);
    part.try_extend_from_slice(lanes.as_flattened()).unwrap();
    part
}
